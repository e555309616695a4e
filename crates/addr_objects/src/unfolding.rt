// An asset row's object with all that it leads to.
ghost use Rattle.std.specs.Prelude.{◌<◌, length};
ghost use Rattle.addr_objects.specs.Objects.{objects_in, ReadsAllOfAsset};
ghost use Rattle.addr_objects.specs.within.Search.{Unfolds};

use crate::homes::Homes;
use crate::items::items_of;
use crate::missing::least_missed;
use crate::reading::home_of;
use crate::searching::reached;
use addr_base::{BundleNo, Guid, Image, Items};
use addr_history::{Item2, Place, ReadErr};
use addr_locate::{AssetRow, BundleRow};
use std::alloc::Global;

/// The unfolding from a place, or the least bundle in which its walk misses something.
fn unfold<I: Image + Drop>(
    alloc: Global,
    images: &[Option<I>],
    homes: &Homes,
    start: Place,
) -> Result<Items<Item2>, ReadErr>
    ensures { Unfolds (objects_in I.object_of images.now) homes.now.bundles homes.now.needs start result }
{
    let places = reached(alloc, images, homes, start)?;
    match least_missed(images, homes, places.as_slice()) {
        Some(b) => Err(ReadErr::Absent(BundleNo(b))),
        None => {
            let items = items_of(alloc, images, places.as_slice())?;
            Ok(items)
        }
    }
}

/// The items that an asset row's object leads to among some bundles. An ordered look-up for each place and each reference.
pub fn read_all_of_asset<I: Image + Drop>(
    alloc: Global,
    images: &[Option<I>],
    bundles: &[BundleRow],
    needs: &[BundleNo],
    asset: &AssetRow,
) -> Result<Items<Item2>, ReadErr>
    requires { 0 < length asset.now.deps }
    ensures { ReadsAllOfAsset (objects_in I.object_of images.now) bundles.now needs.now asset.now result }
{
    let home = home_of(asset);
    match Guid::parse(asset.id.as_str()) {
        Some(guid) => {
            let homes = Homes::of(alloc, bundles, needs)?;
            unfold(
                alloc,
                images,
                &homes,
                Place {
                    guid,
                    bundle: home.0,
                },
            )
        }
        None => Err(ReadErr::Absent(home)),
    }
}
