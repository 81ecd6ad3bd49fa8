//! Whether standard input and output are one file.

use std::fs;
use std::os::unix::fs::MetadataExt;
use std::rt::Files;

// Whether standard output is the regular file that standard input reads: a conversion would read
// what it has just written, without end, or the file was emptied before the conversion began.
// `false` if the system does not say.
pub(crate) fn is_output_the_input<F: Files>(files: &F) -> bool {
    let (Ok(input), Ok(output)) = (
        fs::metadata(files, "/proc/self/fd/0"),
        fs::metadata(files, "/proc/self/fd/1"),
    ) else {
        return false;
    };
    input.is_file() && input.dev() == output.dev() && input.ino() == output.ino()
}
