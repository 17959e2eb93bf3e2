//! How far a call of many steps is.

/// Where a call of many steps says how far it is.
pub trait Progress {
    /// So many steps are to come.
    fn begin(&mut self, steps: usize);

    /// So many steps more are done.
    fn advance(&mut self, steps: usize);
}

/// Says nothing.
#[derive(Clone, Copy)]
pub struct Silent;

impl Progress for Silent {
    fn begin(&mut self, _steps: usize) {}

    fn advance(&mut self, _steps: usize) {}
}
