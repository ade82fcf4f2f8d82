//! The topologies of broadcasts and combines.
ghost use Rattle.std.specs.Prelude.{◌≡◌, IfSome};
ghost use Rattle.route_tree.specs.Letters.{top_of};
ghost use Rattle.route_tree.specs.Parents.{HasBranches};

/// A topology, by the letter that the BLACS give it.
#[derive(Clone, Copy, Debug, PartialEq, Eq)]
pub enum Top {
    /// The increasing ring.
    I,
    /// The decreasing ring.
    D,
    /// The split ring.
    S,
    /// The hypercube.
    H,
    /// Fully connected: the source sends to each member.
    F,
    /// Two paths, one after the other half.
    M,
    /// The tree with so many branches.
    T(u32),
}

impl Top {
    /// The topology of a character: a letter in either case, a digit 1 to 9 for the tree with so many branches, a
    /// blank for the hypercube. T is the tree with two branches. None exactly for any other character.
    pub fn read(c: char) -> Option<Top>
        ensures topology { result ≡ top_of c }
        ensures branches { IfSome result HasBranches }
    {
        match c {
            'I' | 'i' => Some(Top::I),
            'D' | 'd' => Some(Top::D),
            'S' | 's' => Some(Top::S),
            'H' | 'h' | ' ' => Some(Top::H),
            'F' | 'f' => Some(Top::F),
            'M' | 'm' => Some(Top::M),
            'T' | 't' => Some(Top::T(2)),
            '1'..='9' => Some(Top::T(c as u32 - '0' as u32)),
            _ => None,
        }
    }
}
