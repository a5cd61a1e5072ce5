use basics::Seq;
use fixpoint::Fix;
use norm_loc::AxisMap;

/// An axis of a font.
#[derive(Drop)]
pub struct AxisRecord {
    /// Its tag.
    pub tag: [u8; 4],
    /// Its user span and its map to design values.
    pub map: AxisMap,
    /// Whether applications are not to show it.
    pub hidden: bool,
    /// The id of its name in table `name`.
    pub name_id: u16,
}

/// A named instance of a font.
#[derive(Drop)]
pub struct InstanceRecord {
    /// The id of its name in table `name`.
    pub name_id: u16,
    /// Its user values, one an axis.
    pub user: Seq<Fix<16>>,
}
