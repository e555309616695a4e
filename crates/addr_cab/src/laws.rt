// What tables and bundles keep to, whatever is called.
ghost use Rattle.std.specs.Prelude.{◌≡◌, ◌≢◌, ◌<◌, ◌^◌, ◌↔◌, List, ℕ, length, map};
ghost use Rattle.std.specs.List.{AllByRecursion};
ghost use Rattle.addr_base.specs.Ids.{Are16Bytes};
ghost use Rattle.addr_base.specs.declared.ids.Digest.{Digest};
ghost use Rattle.addr_base.specs.declared.images.RefTo.{RefTo};
ghost use Rattle.addr_unityfs.specs.Format.{IsBundle, NoZero};
ghost use Rattle.addr_unityfs.specs.Sizes as files;
ghost use Rattle.addr_unityfs.specs.Written as written;
ghost use Rattle.addr_unityfs.specs.declared.bundle.Bundle.{Bundle};
ghost use Rattle.addr_cab.specs.declared.error.CabErr.{CabErr};
ghost use Rattle.addr_cab.specs.declared.object.ObjectOut.{ObjectOut};
ghost use Rattle.addr_cab.specs.Format.{AreBytes};
ghost use Rattle.addr_cab.specs.Lookup.{HasFault};
ghost use Rattle.addr_cab.specs.Objects.{IsCab, cab_nodes};
ghost use Rattle.addr_cab.specs.Outside.{outside_of, AreOutside};
ghost use Rattle.addr_cab.specs.Sizes.{size_of, table_size, content_size, node_sizes};
ghost use Rattle.addr_cab.specs.Spelling.{table_path, data_path};
ghost use Rattle.addr_cab.specs.Written.{IsCabText, IsTyped, ReadsBack, cab_table, cab_data, refs_of};

/// The laws of objects and their table: a reader gives back what a writer was given, a file holds at most one list of
/// objects and never one beside a fault, lengths tell the sizes of what is written, the two nodes of a bundle can be
/// written, and the outside bundles of a table are determined by the references.
pub fn table_laws()
    // A table and data are those of objects exactly where the table is read as rows, at which the data has them.
    ensures read { (objects : List ObjectOut) (table content : List ℕ)
        → AreBytes table → length content < 2 ^ 64
        → (IsCabText objects table content ↔ ReadsBack objects table content) }
    ensures one { (file : List ℕ) (b : Bundle) (name other : Digest) (objects others : List ObjectOut)
        → length file < 2 ^ 63 → IsBundle file b
        → IsCab file b name objects → IsCab file b other others → (name ≡ other) × (objects ≡ others) }
    ensures never { (file : List ℕ) (b : Bundle) (e : CabErr) (name : Digest) (objects : List ObjectOut)
        → length file < 2 ^ 63 → IsBundle file b
        → HasFault file b e → IsCab file b name objects → ⊥ }
    // The sizes that lengths tell are those of the bytes.
    ensures size { (objects : List ObjectOut) → AllByRecursion IsTyped objects
        → (length (cab_table objects) ≡ table_size (length (outside_of (refs_of objects))) (map size_of objects))
        × (length (cab_data objects) ≡ content_size (map size_of objects)) }
    ensures nodes { (name : Digest) (objects : List ObjectOut) → Are16Bytes name.0 → AllByRecursion IsTyped objects
        → map files.size_of (cab_nodes name (cab_table objects) (cab_data objects))
        ≡ node_sizes (length (outside_of (refs_of objects))) (map size_of objects) }
    // The two paths are texts that differ, so that the two nodes make a bundle file.
    ensures paths { (name : Digest) → Are16Bytes name.0
        → NoZero (table_path name) × NoZero (data_path name) × (table_path name ≢ data_path name) }
    ensures can { (player : List ℕ) (name : Digest) (table content : List ℕ) → NoZero player → Are16Bytes name.0
        → files.file_size (length player) (map files.size_of (cab_nodes name table content)) < 2 ^ 31
        → written.CanWrite player (cab_nodes name table content) }
    // They are the one ascending list of the bundles that some reference leads to.
    ensures outside { (refs : List RefTo) (names : List Digest)
        → (AreOutside refs names ↔ (names ≡ outside_of refs)) }
{}
