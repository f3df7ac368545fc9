// Which entry of an array of N: of 8 a worker's, of 32 a guard's, of 256 a buffer's.
ghost use Rattle.std.specs.Prelude.{◌<◌};

#[derive(Clone, Copy)]
pub(crate) struct Entry<const N: usize> {
    pub(crate) at: usize,
    ghost below: { at < N },
}
