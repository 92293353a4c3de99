// Where the program prints, by formats.
use std::fmt;
use std::fmt::Write;

#[derive(Drop)]
pub struct Out;

impl Write for Out {
    fn write_str(&mut self, s: &str) -> fmt::Result {
        if io::write_all(1, s.as_bytes()) {
            Ok(())
        } else {
            Err(fmt::Error)
        }
    }
}
