// The pallet bench of document 01, served where no file is given: controller scope, access 0, multi-service and instance IDs on.
use crate::run::Run;
use std::io;
use std::io::Read;

/// `Count` is 42, `Rows` holds 1 to 10, `Run` is set.
const MEMORY: [u8; 48] =
    *b"\x2A\0\0\0\x01\0\0\0\x02\0\0\0\x03\0\0\0\x04\0\0\0\x05\0\0\0\x06\0\0\0\x07\0\0\0\x08\0\0\0\x09\0\0\0\x0A\0\0\0\x04\0\0\0";

impl<'a, R: Read, T: Print, E: Print> Run<'a, R, T, E> {
    /// Serves the bench as the options ask.
    pub fn serve_bench(self) -> io::Result<()> {
        let mut memory = MEMORY;
        self.open(&pallet::CONTROLLER, &mut memory)
    }
}
