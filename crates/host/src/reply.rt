// What a command that is carried out is answered.
ghost use Rattle.std.specs.Prelude.{◌≡◌};
ghost use Rattle.host.specs.Replies.{key_reply, number_reply};

use order::keys::RuleNumber;
use skip_list::report::KeyLinks;

#[derive(Clone, Copy)]
pub enum Reply {
    Done,
    Number(u32),
    Named(RuleNumber),
    Nothing,
    Linked(KeyLinks<RuleNumber>),
}

impl From<Option<u32>> for Reply {
    ghost from_gives = { λ number r. r ≡ number_reply number };

    fn from(number: Option<u32>) -> Reply {
        number.map_or(Reply::Nothing, Reply::Number)
    }
}

impl From<Option<RuleNumber>> for Reply {
    ghost from_gives = { λ key r. r ≡ key_reply key };

    fn from(key: Option<RuleNumber>) -> Reply {
        key.map_or(Reply::Nothing, Reply::Named)
    }
}
