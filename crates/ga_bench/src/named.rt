//! The environment of the program. The path by which it was called may be any bytes.
use std::env::FillError;
use std::rt::Env;

/// The name of the program, whatever the path by which it was called.
const NAME: &[u8] = b"ga-bench";

/// An environment in which the program has its own name.
#[derive(Drop)]
pub struct Named<'a, R> {
    pub environment: &'a R,
}

impl<R: Env> Env for Named<'_, R> {
    fn arg(&self, i: usize, buf: &mut [u8]) -> Result<usize, FillError> {
        if i > 0 {
            return self.environment.arg(i, buf);
        }
        if buf.len() < NAME.len() {
            return Err(FillError::TooLong);
        }
        buf[..NAME.len()].copy_from_slice(NAME);
        Ok(NAME.len())
    }

    fn var(&self, name: &str, buf: &mut [u8]) -> Result<usize, FillError> {
        self.environment.var(name, buf)
    }

    fn var_at(&self, i: usize, buf: &mut [u8]) -> Result<usize, FillError> {
        self.environment.var_at(i, buf)
    }
}
