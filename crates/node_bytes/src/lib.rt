#![tactic(auto)]

// Numbers in a byte string, and what the first byte of a node says.
ghost use Rattle.std.specs.Prelude.{◌≡◌, ◌+◌, ◌≤◌, length};
ghost use Rattle.node_bytes.specs.Words.{word_at};
ghost use Rattle.node_bytes.specs.Tags.{tag_of};

/// The kind of a node, by its first byte.
#[derive(Clone, Copy, Debug, PartialEq, Eq, PartialOrd, Ord)]
pub enum Tag {
    /// 0
    Table,
    /// 1
    Inner,
    /// 2
    LeftOuter,
    /// 3
    FullOuter,
    /// 4
    Grouping,
    /// A byte from 5 on is no node's.
    Other,
}

impl From<u8> for Tag {
    ghost from_gives = { λ byte tag. tag ≡ tag_of byte };

    #[tactic(auto, using(crate::specs::Tags::tag_other), unfolding(crate::specs::Tags::tag_of))]
    fn from(byte: u8) -> Tag {
        match byte {
            0 => Tag::Table,
            1 => Tag::Inner,
            2 => Tag::LeftOuter,
            3 => Tag::FullOuter,
            4 => Tag::Grouping,
            _ => Tag::Other,
        }
    }
}

/// The number of the eight bytes from a place on, the lowest first.
#[tactic(auto, using(crate::specs::Words::word_listed))]
pub fn word(s: &[u8], at: usize) -> u64
    requires { at + 8 ≤ length s.now }
    ensures { result ≡ word_at s.now at }
{
    // listed, they are read in one; the library's copy can be compiled to a test of where they lie and a copy on the stack
    let bytes = [
        s[at],
        s[at + 1],
        s[at + 2],
        s[at + 3],
        s[at + 4],
        s[at + 5],
        s[at + 6],
        s[at + 7],
    ];
    u64::from_le_bytes(bytes)
}
