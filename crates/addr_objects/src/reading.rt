// What the images that are kept lend: an object by its bundle and GUID, and the bytes of an asset row's object.
ghost use Rattle.std.specs.Prelude.{◌≡◌, ◌<◌, length, Some, None, slice_get, MatchOption, IfOk, OnErr, is_some, true};
ghost use Rattle.std.specs.Option.{option_map};
ghost use Rattle.addr_objects.specs.Objects.{objects_in, FindsBytes, ReadsAsset};

use addr_base::{BundleNo, Found, Guid, Image, Items, NoMemory};
use addr_history::ReadErr;
use addr_locate::AssetRow;
use std::alloc::Global;

/// The object that the image in a bundle's place has under a GUID; none where no image is kept.
pub fn lent<'a, I: Image + Drop>(
    images: &'a [Option<I>],
    b: BundleNo,
    guid: &'a Guid,
) -> Option<Found<'a>>
    ensures { MatchOption result (objects_in I.object_of images.now b guid.now.0 ≡ None)
        (λ f. objects_in I.object_of images.now b guid.now.0 ≡ Some
        (record { bytes = f.bytes.now; refs = f.refs.now })) }
{
    match images.get(b.0 as usize) {
        Some(Some(image)) => image.object(guid),
        Some(None) => None,
        None => None,
    }
}

/// The bundle that holds an asset row's object: its first dependency.
pub fn home_of(asset: &AssetRow) -> BundleNo
    requires { 0 < length asset.now.deps }
    ensures { slice_get asset.now.deps 0 ≡ Some result }
{
    asset.deps.as_slice()[0]
}

fn bytes_under<I: Image + Drop>(
    alloc: Global,
    images: &[Option<I>],
    b: BundleNo,
    guid: &Guid,
) -> Result<Option<Items<u8>>, NoMemory>
    ensures ok { IfOk result (λ found. found ≡ option_map (λ o. o.bytes)
        (objects_in I.object_of images.now b guid.now.0)) }
    ensures err { OnErr result (is_some (objects_in I.object_of images.now b guid.now.0) ≡ true) }
{
    match lent(images, b, guid) {
        Some(found) => {
            let bytes = Items::copy_of(alloc, found.bytes)?;
            Ok(Some(bytes))
        }
        None => Ok(None),
    }
}

/// The bytes of the object that a bundle holds under the GUID that an id is the text of.
fn find_bytes<I: Image + Drop>(
    alloc: Global,
    images: &[Option<I>],
    b: BundleNo,
    id: &str,
) -> Result<Option<Items<u8>>, NoMemory>
    ensures { FindsBytes (objects_in I.object_of images.now) b id.now result }
{
    match Guid::parse(id) {
        Some(guid) => match bytes_under(alloc, images, b, &guid) {
            Ok(found) => Ok(found),
            Err(want) => Err(want),
        },
        None => Ok(None),
    }
}

/// The bytes of an asset row's object in its first dependency. Only the bytes take memory.
pub fn read_asset<I: Image + Drop>(
    alloc: Global,
    images: &[Option<I>],
    asset: &AssetRow,
) -> Result<Items<u8>, ReadErr>
    requires { 0 < length asset.now.deps }
    ensures { ReadsAsset (objects_in I.object_of images.now) asset.now result }
{
    let home = home_of(asset);
    match find_bytes(alloc, images, home, asset.id.as_str()) {
        Ok(Some(bytes)) => Ok(bytes),
        Ok(None) => Err(ReadErr::Absent(home)),
        Err(_) => Err(ReadErr::NoMemory),
    }
}
