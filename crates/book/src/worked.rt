// The worked case of the rules, proved over every empty ordered set with room for two: rule 9 stands before rule 4.
ghost use Rattle.std.specs.Prelude.{◌≡◌, Some, Ok};
ghost use Rattle.book.specs.Books.{Across};
ghost use Rattle.book.specs.Worked.{Both, Builds, MovesOnce, Vacant};

use crate::book::Book;
use crate::fault::BookFault;
use crate::rule::Rule;
use order::key::Key;
use order::keys::RuleNumber;
use order::set::OrderedSet;

// Rule 9, for turnout 12 and the classes E and F by route 7, and rule 4, for 10 to 14 and F and G by route 3.
fn both_rules() -> Result<(Rule, Rule), BookFault>
    ensures { Both result }
{
    let nine = Rule::new(12, 12, &[b'E', b'F'], 7)?;
    let four = Rule::new(10, 14, &[b'F', b'G'], 3)?;
    Ok((nine, four))
}

// Puts rule 9 into an empty book, and rule 4 behind it.
fn nine_then_four<S: OrderedSet<RuleNumber>>(book: &mut Book<S>) -> Result<(), BookFault>
    ensures { Across S.OrderedSet book.old book.new (Builds result) }
{
    let (nine, four) = both_rules()?;
    book.add(9, nine, 0, 0)?;
    book.add(4, four, 1, 0)?;
    Ok(())
}

// Turnout 12 and class F, which both rules match, are decided by rule 9, which stands first: route 7.
pub fn decided<S: OrderedSet<RuleNumber>>(
    book: &mut Book<S>,
) -> Result<Option<(u16, u8)>, BookFault>
    ensures { Across S.OrderedSet book.old book.new (λ v _. Vacant v → result ≡ Ok (Some (9, 7))) }
{
    nine_then_four(book)?;
    book.decide(12, b'F')
}

// With two rules a move to place 1 is accepted, and one to place 2 is refused by the set of the rules, under number 3.
pub fn moved<S: OrderedSet<RuleNumber>>(
    book: &mut Book<S>,
) -> Result<(u32, Result<u32, BookFault>), BookFault>
    ensures { Across S.OrderedSet book.old book.new (λ v _. Vacant v → MovesOnce result) }
{
    nine_then_four(book)?;
    let place = book.move_rule(9, 1, 0)?;
    Ok((place, book.move_rule(9, 2, 0)))
}
