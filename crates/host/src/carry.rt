// Carries out a command on a row list.
ghost use Rattle.std.specs.Prelude.{◌≡◌, List, []};
ghost use Rattle.order.specs.declared.keys.RuleNumber.{RuleNumber as Number};
ghost use Rattle.order.specs.Deeds.{Deed};
ghost use Rattle.skip_list.specs.History.{Told};
ghost use Rattle.host.specs.Runs.{Served, SplicedIn};

use crate::command::Command;
use crate::refusal::Refusal;
use crate::reply::Reply;
use arrayvec::ArrayVec;
use layers::above::splice;
use order::keys::RuleNumber;
use order::set::OrderedSet;
use skip_list::list::SkipList;

// The most keys, or draws, that wait.
const MOST: usize = 256;

// What waits for the next splice.
#[derive(Drop)]
pub struct Pending {
    pub keys: ArrayVec<RuleNumber, MOST>,
    pub draws: ArrayVec<u32, MOST>,
}

// Splices in what waits, which then waits no more.
fn splice_waiting(
    list: &mut SkipList<'_, RuleNumber>,
    pending: &mut Pending,
    place: u32,
) -> Result<Reply, Refusal>
    ensures spliced { (ds : List (Deed Number)) → Told ds list.old.lent → SplicedIn ds list.old.lent place pending.old.keys.items pending.old.draws.items result list.new.lent }
    ensures keys { pending.new.keys.items ≡ [] }
    ensures draws { pending.new.draws.items ≡ [] }
{
    let spliced = splice(list, place, &pending.keys, &pending.draws);
    pending.keys.clear();
    pending.draws.clear();
    Ok(Reply::Number(spliced?))
}

// Carries out a command, and says what it is answered.
pub fn carry_out(
    list: &mut SkipList<'_, RuleNumber>,
    pending: &mut Pending,
    command: Command,
) -> Result<Reply, Refusal>
    ensures { Served list.old.lent pending.old command result list.new.lent pending.new }
{
    match command {
        Command::InsertHead { key, draw } => {
            list.insert_head(key, draw)?;
            Ok(Reply::Done)
        }
        Command::InsertAfter { before, key, draw } => {
            list.insert_after(before, key, draw)?;
            Ok(Reply::Done)
        }
        Command::InsertIndex { place, key, draw } => {
            list.insert_index(place, key, draw)?;
            Ok(Reply::Done)
        }
        Command::Push { key, draw } => {
            let end = list.length();
            list.insert_index(end, key, draw)?;
            Ok(Reply::Done)
        }
        Command::HoldKey { key } => {
            pending.keys.try_push(key)?;
            Ok(Reply::Done)
        }
        Command::HoldDraw { draw } => {
            pending.draws.try_push(draw)?;
            Ok(Reply::Done)
        }
        Command::Splice { place } => splice_waiting(list, pending, place),
        Command::RemoveKey { key } => Ok(list.remove_key(key).into()),
        Command::RemoveIndex { place } => Ok(list.remove_index(place).into()),
        Command::IndexOf { key } => Ok(list.index_of(key).into()),
        Command::KeyOf { place } => Ok(list.key_of(place).into()),
        Command::Length => Ok(Reply::Number(list.length())),
        Command::Capacity => Ok(Reply::Number(list.capacity())),
        Command::Level { key } => Ok(list.level_report(key).map(u32::from).into()),
        Command::Links { key, level } => Ok(Reply::Linked(list.link_report(Some(key), level)?)),
        Command::HeadLinks { level } => Ok(Reply::Linked(list.link_report(None, level)?)),
    }
}
