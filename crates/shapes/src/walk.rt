//! The shape of a table's code, from the shapes of its parts.

ghost use Rattle.std.specs.Prelude.{◌≡◌, ◌*◌, ◌^◌, ◌<◌, ◌≤◌, length};
ghost use Rattle.language.specs.Tree.{Tree, flatten};
ghost use Rattle.shapes.specs.Shapes.{shape_of, prefix_shape, pair_shape, choice_shape, wide_at};

use crate::shape::Shape;
use language::Entry;
use parts::{Node, root};

// No invariant of Shape can keep the bounds that these functions ask for, since each adds to the length of a part.

// A prefix: its operand is pushed, and a constant worked in.
fn prefix(a: Shape) -> Shape
    requires { a.length < 2 ^ 62 }
    ensures { result ≡ prefix_shape a }
{
    Shape {
        length: a.length + 3,
        tall: a.tall.max(1),
        wide: a.wide,
    }
}

// Two parts, the second over the pushed value of the first, and a word behind each.
fn pair(a: Shape, b: Shape) -> Shape
    requires first_length { a.length < 2 ^ 62 }
    requires second_length { b.length < 2 ^ 62 }
    requires second_tall { b.tall < 2 ^ 62 }
    ensures { result ≡ pair_shape a b }
{
    Shape {
        length: a.length + 1 + b.length + 1,
        tall: a.tall.max(b.tall + 1),
        wide: a.wide.or(b.wide),
    }
}

// The place of an if whose branches have this many words, if a jump over one of them is too long.
fn wide_at(place: usize, then_length: usize, else_length: usize) -> Option<usize>
    ensures { result ≡ wide_at place then_length else_length }
{
    (then_length > 254 || else_length > 253).then_some(place)
}

// An if: a jump behind its condition, and one behind its else code.
fn choice(place: usize, a: Shape, b: Shape, c: Shape) -> Shape
    requires test_length { a.length < 2 ^ 62 }
    requires first_length { b.length < 2 ^ 62 }
    requires second_length { c.length < 2 ^ 62 }
    ensures { result ≡ choice_shape place a b c }
{
    let own = wide_at(place, b.length, c.length);
    Shape {
        length: a.length + 1 + c.length + 1 + b.length,
        tall: a.tall.max(b.tall.max(c.tall)),
        wide: a.wide.or(b.wide).or(c.wide).or(own),
    }
}

/// The shape of the code of the tree in the table: at most three words for an entry, and on the stack at most one.
pub fn measure(entries: &[Entry]) -> Shape
    ensures length { result.length ≤ 3 * length entries.now }
    ensures tall { result.tall ≤ length entries.now }
    ensures value { (t : Tree) → entries.now ≡ flatten t → result ≡ shape_of t }
{
    match root(entries) {
        None => Shape::default(),
        Some(Node::Number(_) | Node::Truth(_) | Node::Name(_, _)) => Shape::WORD,
        Some(Node::Prefix(_, _, part)) => prefix(measure(part)),
        Some(Node::Binary(_, _, first, second) | Node::Let(first, second)) => {
            pair(measure(first), measure(second))
        }
        Some(Node::If(place, test, first, second)) => {
            choice(place, measure(test), measure(first), measure(second))
        }
    }
}
