//! Tests the texts in folders, one after the other.
ghost use Rattle.std.specs.Prelude.{◌≡◌, ◌∷◌, [], ℕ, List, IfOk, OnOk, map, string_bytes};
ghost use Rattle.peg_semantics.specs.Rules.{Rule};
ghost use Rattle.peg_test_files.specs.Testers.{AddsFolder, AddsNames, AddsText, HasTested, IsTesterOf, setting_by};

use crate::paths::path_of;
use crate::results::Results;
use crate::tester::Tester;
use crate::trial::Trial;
use crate::wanted::Wanted;
use peg_explain_files::{Entry, report_of_name};
use peg_io::{OpenFault, Opener};
use std::alloc::{AllocError, Global};

/// Tests the texts in the folders with these names, in order. The only error is a failed allocation.
pub(crate) fn test_folders<O: Opener>(
    alloc: Global,
    tester: &Tester<'_, O>,
    folders: &[String],
) -> Result<Results, AllocError>
    ensures { (file : List ℕ) (rules : List Rule) → IsTesterOf file rules tester.now → IfOk result
        (HasTested (setting_by (O.file_at tester.now.files.now) file rules tester.now) (map string_bytes folders.now)) }
{
    let mut results = Results::new(alloc);
    'folders: for folder in folders {
        test_folder(alloc, tester, folder, &mut results)?;
    }
    Ok(results)
}

// Tests the texts in the folder with this name.
fn test_folder<O: Opener>(
    alloc: Global,
    tester: &Tester<'_, O>,
    folder: &str,
    results: &mut Results,
) -> Result<(), AllocError>
    ensures { (file : List ℕ) (rules : List Rule) → IsTesterOf file rules tester.now → OnOk result
        (AddsFolder (setting_by (O.file_at tester.now.files.now) file rules tester.now) folder.now results.old results.new) }
{
    match tester.files.list(alloc, folder) {
        Ok(names) => test_names(alloc, tester, folder, &names, results),
        Err(OpenFault::File { .. }) => results.add(
            alloc,
            &Trial::Unlisted {
                folder: folder.as_bytes(),
            },
        ),
        Err(OpenFault::Memory) => Err(AllocError),
    }
}

// Tests the texts among the files with these names in a folder.
fn test_names<O: Opener>(
    alloc: Global,
    tester: &Tester<'_, O>,
    folder: &str,
    names: &[String],
    results: &mut Results,
) -> Result<(), AllocError>
    ensures { (file : List ℕ) (rules : List Rule) → IsTesterOf file rules tester.now → OnOk result
        (AddsNames (setting_by (O.file_at tester.now.files.now) file rules tester.now) folder.now
        (map string_bytes names.now) results.old results.new) }
{
    'names: for name in names {
        test_name(alloc, tester, folder, name, results)?;
    }
    Ok(())
}

// Tests the file with this name in a folder, if the name asks for something.
fn test_name<O: Opener>(
    alloc: Global,
    tester: &Tester<'_, O>,
    folder: &str,
    name: &str,
    results: &mut Results,
) -> Result<(), AllocError>
    ensures { (file : List ℕ) (rules : List Rule) → IsTesterOf file rules tester.now → OnOk result
        (AddsText (setting_by (O.file_at tester.now.files.now) file rules tester.now) folder.now name.now results.old
        results.new) }
{
    let Some(wanted) = Wanted::of_name(name.as_bytes()) else {
        return results.add(alloc, &Trial::Ignored);
    };
    let path = path_of(alloc, folder, name)?;
    let report = report_of_name(
        alloc,
        tester.files,
        &tester.explainer,
        path.as_bytes(),
        tester.options,
    )?;
    let name = path.as_bytes();
    let entry = Entry { name, report };
    results.add(alloc, &Trial::Tried { wanted, entry })
}
