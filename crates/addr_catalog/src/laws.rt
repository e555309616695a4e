// What holds of all bytes, so that reading has one right answer, and of the rows that are written. Nothing here runs.
ghost use Rattle.std.specs.Prelude.{◌≡◌, ℕ, List, Ok, Err};
ghost use Rattle.std.specs.List.{AllByRecursion};
ghost use Rattle.addr_reading.specs.Gives.{IsDecided};
ghost use Rattle.addr_catalog.specs.Catalogue.{catalogue_read};
ghost use Rattle.addr_catalog.specs.declared.catalogue.Catalogue.{Catalogue as Whole};
ghost use Rattle.addr_catalog.specs.declared.error.CatErr.{CatErr as Fault};
ghost use Rattle.addr_catalog.specs.declared.error.CatErr.TheVariants as faults;
ghost use Rattle.addr_catalog.specs.ReadsAlike.{HasDistinctKeys, ReadsBackAlike};
ghost use Rattle.addr_catalog.specs.Written.{CanWrite, HasOptions};

use addr_locate::Locator;

/// Bytes are a catalogue or have a first fault, and never both.
pub fn catalogue_laws()
    ensures either { (bytes : List ℕ) → IsDecided faults.NoMemory (catalogue_read bytes) }
    ensures apart { (bytes : List ℕ) (c : Whole) (e : Fault) → catalogue_read bytes ≡ Ok c
        → catalogue_read bytes ≡ Err e → ⊥ }
{}

/// The rows of tables that are written for a locator are read back as alike rows. Nothing runs.
pub fn written_rows_read_back(locator: &Locator)
    requires keyed { CanWrite locator.now }
    requires again { AllByRecursion HasOptions locator.now.bundles }
    ensures { HasDistinctKeys locator.now → ReadsBackAlike locator.now }
{
    locator.are_rows();
}
