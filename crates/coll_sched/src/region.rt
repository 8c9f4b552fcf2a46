ghost use Rattle.std.specs.Prelude.{◌≡◌, ◌+◌, ◌↔◌, length, IsTrue};

/// A run of bytes of a member's buffer.
#[derive(Clone, Copy, Debug, Default, PartialEq, Eq)]
pub struct Region {
    /// The number of the first byte.
    pub at: u32,
    /// How many bytes; it may be none.
    pub len: u32,
}

impl Region {
    ghost use Rattle.coll_sched.specs.Regions.{Inside, Apart, behind, front, read_of, written};

    /// No bytes.
    pub const EMPTY: Region = Region { at: 0, len: 0 };

    /// The first `len` bytes of a buffer.
    pub fn front(len: u32) -> Region
        ensures { result ≡ front len }
    {
        Region { at: 0, len }
    }

    /// The `len` bytes after the first `len`.
    pub fn behind(len: u32) -> Region
        ensures { result ≡ behind len }
    {
        Region { at: len, len }
    }

    /// Whether a buffer of `size` bytes holds the region. An empty region has its place too.
    pub fn is_inside(self, size: u32) -> bool
        ensures { IsTrue result ↔ Inside size self }
    {
        self.end() <= u64::from(size)
    }

    /// Whether the regions share no byte.
    pub fn is_apart(self, other: Region) -> bool
        ensures { IsTrue result ↔ Apart self other }
    {
        self.len == 0
            || other.len == 0
            || self.end() <= u64::from(other.at)
            || other.end() <= u64::from(self.at)
    }

    /// The bytes of the region.
    pub fn read(self, buf: &[u8]) -> &[u8]
        requires { Inside (length buf.now) self }
        ensures { result.now ≡ read_of buf.now self }
    {
        &buf[self.at as usize..self.at as usize + self.len as usize]
    }

    /// Writes `bytes` into the region.
    pub fn write(self, bytes: &[u8], buf: &mut [u8])
        requires inside { Inside (length buf.old) self }
        requires same { length bytes.now ≡ self.len }
        ensures { buf.new ≡ written buf.old self bytes.now }
    {
        buf[self.at as usize..self.at as usize + self.len as usize].copy_from_slice(bytes);
    }

    /// Copies the region into another of its length; where they share bytes, what stood there before is copied. Regions that
    /// share none are copied at one time, others byte by byte.
    pub fn copy(self, into: Region, buf: &mut [u8])
        requires from { Inside (length buf.old) self }
        requires into { Inside (length buf.old) into }
        requires same { self.len ≡ into.len }
        ensures { buf.new ≡ written buf.old into (read_of buf.old self) }
    {
        if self.end() <= u64::from(into.at) {
            let (below, above) = buf.split_at_mut(into.at as usize);
            Region::front(into.len).write(self.read(below), above);
        } else if into.end() <= u64::from(self.at) {
            let (below, above) = buf.split_at_mut(self.at as usize);
            into.write(Region::front(self.len).read(above), below);
        } else {
            let start = self.at as usize;
            buf.copy_within(start..start + self.len as usize, into.at as usize);
        }
    }

    // The number of the byte after the region.
    fn end(self) -> u64
        ensures { result ≡ self.at + self.len }
    {
        u64::from(self.at) + u64::from(self.len)
    }
}
