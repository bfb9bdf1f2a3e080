//! A permission to wait whose clone takes memory, so that each handle that is made asks for some.
use refusing::Refusing;
use std::alloc::{AllocError, Global};
use std::sync::Wait;

#[derive(Drop)]
pub struct Asking<'a, R> {
    pub rt: &'a R,
    pub alloc: &'a Refusing<Global>,
}

impl<R: Wait> Wait for Asking<'_, R> {}

impl<'a, R> Clone for Asking<'a, R> {
    fn clone(&self) -> Result<Asking<'a, R>, AllocError> {
        drop(Box::new(self.alloc, 0u64)?);
        let (rt, alloc) = (self.rt, self.alloc);
        Ok(Asking { rt, alloc })
    }
}
