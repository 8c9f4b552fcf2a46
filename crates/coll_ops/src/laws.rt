//! Laws over the definitions, each the contract of a function that does nothing.

ghost use Rattle.coll_ops.specs.Laws.{OperationsAssociate, OperationsStay, CombinationsAssociate, ValuesReadNeeds};

/// Every allowed operation is associative on the elements of its type (MPI 4.1, 6.9.1).
pub fn operations_associate()
    ensures { OperationsAssociate }
{}

/// The result of an allowed operation on elements of its type is an element of that type.
pub fn operations_stay()
    ensures { OperationsStay }
{}

/// The combination of rows is associative.
pub fn combinations_associate()
    ensures { CombinationsAssociate }
{}

/// The value of a member is equal for two lists of contributions that agree on the members that it
/// needs.
pub fn values_read_needs()
    ensures { ValuesReadNeeds }
{}
