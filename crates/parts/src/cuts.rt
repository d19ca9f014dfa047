//! Where the parts of a table begin, by their sizes.

ghost use Rattle.std.specs.Prelude.{◌≡◌, List, ◌++◌, length, MatchOption, IfSome};
ghost use Rattle.language.specs.Tree.{Tree, flatten};
ghost use Rattle.parts.specs.Nodes.{RootOf, Within, Shorter};

use crate::node::Node;
use language::{Entry, Kind};

// The entries before the last part, and that part, which is as long as its last entry says.
fn cut(entries: &[Entry]) -> Option<(&[Entry], &[Entry])>
    ensures within { IfSome result (λ p. entries.now ≡ p.0.now ++ p.1.now) }
    ensures value { (xs : List Entry) (t : Tree) → entries.now ≡ xs ++ flatten t → MatchOption result ⊥ (λ p. (p.0.now ≡ xs) × (p.1.now ≡ flatten t)) }
{
    let size = entries.last()?.size;
    let start = entries.len().checked_sub(size)?;
    Some(entries.split_at(start))
}

/// The root of the table, with its parts, if the table has an entry that can be the root of a tree.
#[inline]
pub fn root(entries: &[Entry]) -> Option<Node<'_>>
    ensures within { IfSome result (Within entries.now) }
    ensures shorter { IfSome result (Shorter (length entries.now)) }
    ensures value { (t : Tree) → entries.now ≡ flatten t → MatchOption result ⊥ (RootOf t) }
{
    let (last, parts) = entries.split_last()?;
    match last.kind {
        Kind::Blank => None,
        Kind::Number => Some(Node::Number(last.number)),
        Kind::Truth => Some(Node::Truth(last.number)),
        Kind::Name => Some(Node::Name(last.number.size, last.place)),
        Kind::Prefix(operator) => Some(Node::Prefix(operator, last.place, parts)),
        Kind::Binary(operator) => {
            let (first, second) = cut(parts)?;
            Some(Node::Binary(operator, last.place, first, second))
        }
        Kind::If => {
            let (front, third) = cut(parts)?;
            let (first, second) = cut(front)?;
            Some(Node::If(last.place, first, second, third))
        }
        Kind::Let => {
            let (first, second) = cut(parts)?;
            Some(Node::Let(first, second))
        }
    }
}
