// A law of builds, for whoever reads while a build is under way. Nothing runs.
ghost use Rattle.std.specs.Prelude.{ℕ, List, take};
ghost use Rattle.addr_base.specs.declared.files.MemFile.{MemFile as File};
ghost use Rattle.addr_project.specs.Model.{Project};
ghost use Rattle.addr_release.specs.Puts.{IsAfter, Test};
ghost use Rattle.addr_build.specs.Laws.{IsOldOrNew};
ghost use Rattle.addr_build.specs.Outcomes.{IsBegun};

/// After however many puts of a build, and so at each of its moments, the catalogue is the old one or that of the
/// project's release.
pub fn build_laws()
    ensures { (p : Project) (folder : List ℕ) (puts : List File) (tests : List Test) (k : ℕ) (old new : List File)
        → IsBegun p folder puts tests → IsAfter (take k puts) old new → IsOldOrNew p folder old new }
{}
