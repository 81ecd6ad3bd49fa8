//! Counts the cases, conversions and differences of a file of cases, and prints them.

use std::fmt::Debug;

/// The counts of a file of cases.
#[derive(Clone, Copy)]
pub struct Report {
    file: &'static str,
    // The number of the line that is being read.
    line: usize,
    cases: u32,
    conversions: u32,
    differences: u32,
    // Whether a difference of this line has been printed.
    is_told: bool,
}

impl Report {
    /// Returns the report on a file of which nothing has been read yet.
    pub fn new(file: &'static str) -> Self {
        Report {
            file,
            line: 0,
            cases: 0,
            conversions: 0,
            differences: 0,
            is_told: false,
        }
    }

    /// Sets the number of the line that is being read or converted.
    pub fn at(&mut self, line: usize) {
        self.line = line;
        self.is_told = false;
    }

    /// Returns the number of the line that is being read.
    pub fn line(&self) -> usize {
        self.line
    }

    /// Counts a case.
    pub fn count_case(&mut self) {
        self.cases = self.cases.wrapping_add(1);
    }

    /// Counts a conversion.
    pub fn count_conversion(&mut self) {
        self.conversions = self.conversions.wrapping_add(1);
    }

    /// Counts `count` conversions.
    pub fn count_conversions(&mut self, count: usize) {
        let count = u32::try_from(count).unwrap_or(u32::MAX);
        self.conversions = self.conversions.saturating_add(count);
    }

    // Counts a difference. Returns whether it is the first one of its line: only that one is
    // printed.
    fn count_difference(&mut self) -> bool {
        let is_first = !self.is_told;
        self.differences = self.differences.wrapping_add(1);
        self.is_told = true;
        is_first
    }

    /// Counts a difference, and prints it if it is the first one of its line.
    pub fn differs(&mut self, rt: &impl Print, what: &str) -> anyhow::Result<()> {
        if self.count_difference() {
            println!(rt; "{}:{}: {what}", self.file, self.line)?;
        }
        Ok(())
    }

    /// Compares a value with the expected one. If they differ, counts the difference, and prints it
    /// if it is the first one of its line.
    pub fn compare<T: PartialEq + Debug>(
        &mut self,
        rt: &impl Print,
        what: &str,
        got: &T,
        want: &T,
    ) -> anyhow::Result<()> {
        if got != want && self.count_difference() {
            println!(rt;
                "{}:{}: {what}: {got:?} and not {want:?}",
                self.file, self.line
            )?;
        }
        Ok(())
    }

    /// Compares two texts as `compare` does, and prints them without quotes.
    pub fn compare_texts(
        &mut self,
        rt: &impl Print,
        what: &str,
        got: &str,
        want: &str,
    ) -> anyhow::Result<()> {
        if got != want && self.count_difference() {
            println!(rt; "{}:{}: {what}: {got} and not {want}", self.file, self.line)?;
        }
        Ok(())
    }

    /// Compares as `compare` does, and prints the plan of the conversion with the difference.
    pub fn compare_by<P: Debug, T: PartialEq + Debug>(
        &mut self,
        rt: &impl Print,
        plan: &P,
        what: &str,
        got: &T,
        want: &T,
    ) -> anyhow::Result<()> {
        if got != want && self.count_difference() {
            println!(rt;
                "{}:{}: {plan:?}: {what}: {got:?} and not {want:?}",
                self.file, self.line
            )?;
        }
        Ok(())
    }

    /// Prints the counts.
    pub fn end(&self, rt: &impl Print) -> anyhow::Result<()> {
        println!(rt;
            "{}: {} cases, {} conversions, {} differences",
            self.file, self.cases, self.conversions, self.differences
        )?;
        Ok(())
    }
}
