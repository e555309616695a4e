// The images that are kept: a place for each bundle, filled exactly where it is resident.
ghost use Rattle.std.specs.Prelude.{◌≡◌, Some, None, slice_set};
ghost use Rattle.addr_queue.specs.Changes.{cleared_each};
ghost use Rattle.addr_queue.specs.Slots.{passes, is_missing};

use addr_base::BundleNo;
use addr_queue::{Slot, is_missing};

/// Puts an image into its bundle's place, if there is one.
pub fn put<I: Drop>(images: &mut [Option<I>], b: BundleNo, image: I)
    ensures { images.new ≡ slice_set images.old b.0 (Some image) }
{
    let place = b.0 as usize;
    if place < images.len() {
        images[place] = Some(image);
    }
}

fn clear_image<I: Drop>(images: &mut [Option<I>], b: BundleNo)
    ensures { images.new ≡ slice_set images.old b.0 None }
{
    let place = b.0 as usize;
    if place < images.len() {
        images[place] = None;
    }
}

/// Lets go of the images of those of the bundles that aren't resident.
pub fn clear_each<I: Drop>(images: &mut [Option<I>], slots: &[Slot], needs: &[BundleNo])
    ensures { images.new ≡ cleared_each None (passes is_missing slots.now) needs.now images.old }
{
    for b in needs {
        if is_missing(slots, *b) {
            clear_image(images, *b);
        }
    }
}
