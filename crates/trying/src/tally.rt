// What is counted, for each line that is printed: how many cases were tried, and how many of them were bad.
use std::io;

// The counts of one line.
#[derive(Clone, Copy, Default)]
pub struct Tally {
    tried: u64,
    bad: u64,
}

impl Tally {
    // Counts a case; a case that is not fine is bad.
    pub fn count(&mut self, fine: bool) {
        self.tried = self.tried.wrapping_add(1);
        self.bad = self.bad.wrapping_add(u64::from(!fine));
    }

    // Counts a case, if it belongs to the line.
    pub fn count_if(&mut self, belongs: bool, fine: bool) {
        if belongs {
            self.count(fine);
        }
    }
}

// Prints lines: what was counted, after some words.
pub fn print(rt: &impl Print, lines: &[(Tally, &str)]) -> io::Result<()> {
    for (Tally { tried, bad }, words) in lines {
        println!(rt; "{words}: {tried} tried, {bad} bad")?;
    }
    Ok(())
}
