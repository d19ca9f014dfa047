//! The walk over a table that judges it.

ghost use Rattle.std.specs.Prelude.{◌≡◌, ◌+◌, ◌≤◌, length, reverse};
ghost use Rattle.arrayvec.specs.ArrayVec.{array_vec_len};
ghost use Rattle.language.specs.Tree.{Tree, flatten};
ghost use Rattle.language.specs.Typing.{fitting, typed, type_of};
ghost use Rattle.typing.specs.Judged.{judged, prefixed, paired, chosen};

use crate::scope::fields;
use grammar::Rule;
use language::{Entry, Operator, Prefix, ValueType};
use parts::{Bindings, Node, bound, root};
use refusal::Refusal;

// The type of an entry at a place, where its types fit.
fn fit(fits: bool, gives: ValueType, place: usize) -> Result<ValueType, Refusal>
    ensures { result ≡ judged (fitting fits gives place) }
{
    fits.then_some(gives).ok_or(Refusal::IllTyped(place))
}

// The type of a prefix on an operand of the type a.
fn prefix(operator: Prefix, a: ValueType, place: usize) -> Result<ValueType, Refusal>
    ensures { result ≡ judged (prefixed operator place a) }
{
    let row = operator.row();
    fit(a == row.takes, row.gives, place)
}

// The type of an operator between operands of the types a and b.
fn binary(
    operator: Operator,
    a: ValueType,
    b: ValueType,
    place: usize,
) -> Result<ValueType, Refusal>
    ensures { result ≡ judged (paired operator place a b) }
{
    let row = operator.row();
    fit(a == row.takes && b == row.takes, row.gives, place)
}

// The type of an if with a condition of the type a and branches of the types b and c.
fn choice(a: ValueType, b: ValueType, c: ValueType, place: usize) -> Result<ValueType, Refusal>
    ensures { result ≡ judged (chosen place a b c) }
{
    fit(a == ValueType::Truth && b == c, b, place)
}

// The type of the tree in the table under a scope, which is left as it was.
fn type_of(entries: &[Entry], scope: &mut Bindings<ValueType>) -> Result<ValueType, Refusal>
    requires { array_vec_len scope.old + length entries.now ≤ 520 }
    ensures kept { scope.new ≡ scope.old }
    ensures value { (t : Tree) → entries.now ≡ flatten t → result ≡ judged (typed (reverse scope.old.items) t) }
{
    match root(entries).ok_or(Refusal::IllTyped(0))? {
        Node::Number(_) => Ok(ValueType::Number),
        Node::Truth(_) => Ok(ValueType::Truth),
        Node::Name(position, place) => { bound(scope, position).ok_or(Refusal::IllTyped(place)) }
        Node::Prefix(operator, place, part) => {
            let a = type_of(part, scope)?;
            prefix(operator, a, place)
        }
        Node::Binary(operator, place, first, second) => {
            let a = type_of(first, scope)?;
            let b = type_of(second, scope)?;
            binary(operator, a, b, place)
        }
        Node::If(place, test, first, second) => {
            let a = type_of(test, scope)?;
            let b = type_of(first, scope)?;
            let c = type_of(second, scope)?;
            choice(a, b, c, place)
        }
        Node::Let(value, body) => {
            let a = type_of(value, scope)?;
            scope.push(a);
            let b = type_of(body, scope);
            scope.pop();
            b
        }
    }
}

/// The type of the rule, or the place of the first entry in post-order whose types do not fit.
pub fn judge(rule: Rule<'_>) -> Result<ValueType, Refusal>
    ensures { (t : Tree) → rule.entry.entries.now ≡ flatten t → result ≡ judged (type_of t) }
{
    let mut scope = fields();
    type_of(rule.entries, &mut scope)
}
