use crate::band::Band;

// the bands of the watched instruments, by slot
#[derive(Drop)]
pub struct Coverage {
    pub(crate) bands: Vec<Band>,
}
