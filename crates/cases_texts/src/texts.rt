//! Texts that more than one crate of tests takes.

/// Two persistent sums, which two ranks start in different orders, and the lines of their values.
pub const STARTS_OUT_OF_ORDER: (&str, &str) = (
    "ranks 2\nrank 0\ninit 0 allreduce sum i32 1\ninit 0 allreduce max i32 1\n\
     start 0 : 1\nstart 1 : 10\nwaitall\nstart 0 : 2\nstart 1 : 20\nwaitall\nstart 0 : 3\nstart 1 : 30\n\
     rank 1\ninit 0 allreduce sum i32 1\ninit 0 allreduce max i32 1\n\
     start 1 : 11\nstart 0 : 4\nwaitall\nstart 1 : 19\nstart 0 : 5\nwaitall\nstart 1 : 31\nstart 0 : 6\n",
    "rank 0 req 0 start 0 : 5\nrank 0 req 0 start 1 : 7\nrank 0 req 0 start 2 : 9\n\
     rank 0 req 1 start 0 : 11\nrank 0 req 1 start 1 : 20\nrank 0 req 1 start 2 : 31\n\
     rank 1 req 0 start 0 : 5\nrank 1 req 0 start 1 : 7\nrank 1 req 0 start 2 : 9\n\
     rank 1 req 1 start 0 : 11\nrank 1 req 1 start 1 : 20\nrank 1 req 1 start 2 : 31\n",
);
