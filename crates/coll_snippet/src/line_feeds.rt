ghost use Rattle.std.specs.Prelude.{◌≡◌};
ghost use Rattle.std.specs.List.{list_any};
ghost use Rattle.coll_parser.specs.Cutting.{is_line_feed};

/// Whether some of the bytes is a line feed.
pub fn has_line_feed(bytes: &[u8]) -> bool
    ensures { result ≡ list_any is_line_feed bytes.now }
{
    bytes.iter().any(|byte| *byte == b'\n')
}
