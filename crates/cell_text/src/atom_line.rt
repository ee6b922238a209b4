// An atom line. The functions on it stand in `atom.rt`: their contracts cite definitions that see this type.
use crate::three::ThreeNumbers;
use crystal::Name;

/// An atom as its line says it: the name of its species, its position, and its moment along the axes.
#[derive(Drop)]
pub(crate) struct AtomLine {
    pub name: Name,
    pub position: ThreeNumbers,
    pub moment: ThreeNumbers,
}
