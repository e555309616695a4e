// What was read of the asset files so far.
use crate::error::ProjectErr;
use crate::model::Asset;
use addr_base::Items;

/// What was read so far. Once a size passed a limit, nothing more is kept.
#[derive(Drop)]
pub struct Loaded {
    pub assets: Items<Asset>,
    pub total: u64,
    pub over: Option<ProjectErr>,
}
