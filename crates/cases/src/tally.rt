// Counts the checks that held, and keeps the name of the first that did not.
use std::io;

#[derive(Default, Drop)]
pub struct Tally<'t> {
    held: u64,
    failed: u64,
    first: Option<&'t str>,
}

impl<'t> Tally<'t> {
    pub(crate) fn check(&mut self, what: &'t str, holds: bool) {
        if holds {
            self.held = self.held.saturating_add(1);
            return;
        }
        self.failed = self.failed.saturating_add(1);
        self.first = self.first.or(Some(what));
    }

    // Prints what was counted under a title, and begins anew.
    pub(crate) fn close(&mut self, rt: &HostRuntime, title: &str) -> io::Result<()> {
        let held = self.held;
        let failed = self.failed;
        println!(rt; "{title}: {held} held, {failed} failed")?;
        if let Some(what) = self.first {
            println!(rt; "{what}")?;
        }
        *self = Tally::default();
        Ok(())
    }
}
