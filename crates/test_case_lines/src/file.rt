//! Reads a file of cases, line by line.

use crate::report::Report;

/// Reads the lines of one file of cases, and keeps what the lines so far have set up.
pub trait Lines {
    /// The next line, which is neither empty nor a comment. It may have spaces around it.
    fn line(
        &mut self,
        rt: &(impl Print + AllocGlobal),
        line: &str,
        report: &mut Report,
    ) -> anyhow::Result<()>;

    /// Called once after the last line. By default it does nothing. A reader checks here the cases
    /// that the last lines have left unchecked.
    fn end(&mut self, _: &(impl Print + AllocGlobal), _: &mut Report) -> anyhow::Result<()> {
        Ok(())
    }
}

/// Checks the cases of a file, and prints the differences and the counts. A line that cannot be
/// read counts as a difference.
pub fn run_file(
    rt: &(impl Print + AllocGlobal),
    name: &'static str,
    text: &str,
    mut lines: impl Lines + Drop,
) -> anyhow::Result<()> {
    let mut report = Report::new(name);
    for (number, line) in text.lines().enumerate() {
        let words = line.trim();
        if words.is_empty() || words.starts_with('#') {
            continue;
        }
        report.at(number.wrapping_add(1));
        if let Err(fault) = lines.line(rt, line, &mut report) {
            let what = format!(in rt.alloc(); "{fault}")?;
            report.at(number.wrapping_add(1));
            report.differs(rt, what.as_str())?;
        }
    }
    lines.end(rt, &mut report)?;
    report.end(rt)
}
