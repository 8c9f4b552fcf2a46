//! A write into a buffer, and how a region lies beside it.

ghost use Rattle.std.specs.Prelude.{◌≡◌, ℕ, ◌↔◌, List, length, IfNone, IfSome, IsTrue};
ghost use Rattle.coll_sched.specs.Regions.{Apart, Inside, read_of, written};
ghost use Rattle.coll_bytes.specs.Laid.{place_of};
ghost use Rattle.coll_bytes.specs.Overlaps.{IsCommon, Within, seen_from};

use crate::bytes::Bytes;
use coll_sched::Region;

/// Bytes at their place in a buffer.
#[derive(Debug, Default, Drop)]
pub(crate) struct Segment {
    pub(crate) at: u32,
    pub(crate) bytes: Bytes,
}

/// Tells whether `inner` lies in `outer`.
pub(crate) fn is_within(outer: Region, inner: Region) -> bool
    ensures { IsTrue result ↔ Within outer inner }
{
    outer.at <= inner.at
        && u64::from(inner.at) + u64::from(inner.len) <= u64::from(outer.at) + u64::from(outer.len)
}

// Returns the place of `inner` counted from the front of `outer`.
fn seen_from(outer: Region, inner: Region) -> Region
    requires { Within outer inner }
    ensures { result ≡ seen_from outer inner }
{
    Region {
        at: inner.at - outer.at,
        len: inner.len,
    }
}

// Returns the intersection of two regions, if it isn't empty.
fn common(first: Region, second: Region) -> Option<Region>
    ensures common { IfSome result (IsCommon first second) }
    ensures none { IfNone result (Apart first second) }
{
    if first.is_apart(second) {
        return None;
    }
    let at = first.at.max(second.at);
    let first_end = u64::from(first.at) + u64::from(first.len);
    let second_end = u64::from(second.at) + u64::from(second.len);
    let end = first_end.min(second_end);
    if end <= u64::from(at) {
        return None;
    }
    Some(Region {
        at,
        len: (end - u64::from(at)) as u32,
    })
}

impl Segment {
    /// Returns the region of the buffer that the segment covers.
    pub(crate) fn place(&self) -> Region
        ensures { result ≡ place_of self.now }
    {
        Region {
            at: self.at,
            len: self.bytes.len(),
        }
    }

    /// Returns the place of a region of the buffer, counted from the front of the segment.
    pub(crate) fn inner(&self, from: Region) -> Region
        requires { Within (place_of self.now) from }
        ensures { result ≡ seen_from (place_of self.now) from }
    {
        seen_from(self.place(), from)
    }

    /// Copies the segment's bytes of a region over the region's bytes in `out`.
    pub(crate) fn lay_over(&self, from: Region, out: &mut [u8])
        requires { length out.old ≡ from.len }
        ensures { (buffer : List ℕ) → Inside (length buffer) (place_of self.now) → Inside (length buffer) from
            → out.old ≡ read_of buffer from
            → out.new ≡ read_of (written buffer (place_of self.now) self.now.bytes) from }
    {
        let place = self.place();
        let Some(common) = common(place, from) else {
            return;
        };
        let own = seen_from(place, common).read(self.bytes.as_slice());
        seen_from(from, common).write(own, out);
    }
}
