// One row: its level and its links, each with a way in which it leads.
ghost use Rattle.std.specs.Prelude.{◌≡◌, ◌<◌};
ghost use Rattle.links.specs.Cell.{Throughout, link_of, none, toward, with_link, with_toward};
ghost use Rattle.links.specs.Chain.{nearby};

use crate::{LevelLinks, Link, Links, Row, Way};

impl LevelLinks {
    fn toward(&self, way: Way) -> Link
        ensures { result ≡ toward way self.now }
    {
        match way {
            Way::Ahead => self.ahead,
            Way::Back => self.back,
        }
    }

    fn put(&mut self, way: Way, link: Link)
        ensures { self.new ≡ with_toward way link self.old }
    {
        match way {
            Way::Ahead => self.ahead = link,
            Way::Back => self.back = link,
        }
    }
}

impl Row {
    /// A row that is in no order yet.
    pub fn empty() -> Row
        ensures { Throughout result 0 none }
    {
        Row::throughout(0, Link { row: 0, count: 0 })
    }

    /// The head of no rows: at every level its links lead round to itself.
    pub(crate) fn around() -> Row
        ensures { Throughout result 1 nearby }
    {
        Row::throughout(1, Link { row: 0, count: 1 })
    }

    fn throughout(level: u8, link: Link) -> Row
        ensures { Throughout result level link }
    {
        let links = Links {
            at: [LevelLinks {
                ahead: link,
                back: link,
            }; 16],
        };
        Row { level, links }
    }

    pub(crate) fn link(&self, way: Way, level: u8) -> Link
        requires { level < 16 }
        ensures { result ≡ link_of way level self.now }
    {
        self.links.at[level as usize].toward(way)
    }

    pub(crate) fn set_link(&mut self, way: Way, level: u8, link: Link)
        requires { level < 16 }
        ensures after { self.new ≡ with_link way level link self.old }
        ensures there { link_of way level self.new ≡ link }
    {
        self.links.at[level as usize].put(way, link);
    }
}
