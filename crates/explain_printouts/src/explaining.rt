//! What `explain` writes.

ghost use Rattle.std.specs.Prelude.{◌≡◌, ◌++◌, ◌∷◌, [], IfOk, OnOk};
ghost use Rattle.std.specs.List.{AllZip};
ghost use Rattle.graph.specs.Units.{first_lacking};
ghost use Rattle.file_faults.specs.Answers.{AnswersOn};
ghost use Rattle.explain_printouts.specs.declared.objects.Object.{Object};
ghost use Rattle.explain_printouts.specs.Explain.{IsExplainText};
ghost use Rattle.explain_printouts.specs.ExplainDocuments.{AreObjects, IsExplainDocument, IsExplainPage, IsObjectOf};

use crate::objects::{Object, object_of, objects_document, objects_page};
use candidates::prepare_all;
use explain::explain_lines;
use file_faults::FileFault;
use loop_data::Loop;
use loop_schedules::Prepared;
use machine::{Machine, OutOfMemory};
use settings::Settings;
use std::alloc::Global;
use written::Printout;

/// What `explain` writes.
pub fn explain_text(
    alloc: Global,
    machine: &Machine,
    loops: Vec<Loop>,
    settings: &Settings,
) -> Result<Printout, FileFault>
    ensures { AnswersOn (IsExplainText settings.now.ratio settings.now.ceiling machine.now loops.items) (first_lacking machine.now loops.items) result }
{
    let explained = explain_lines(alloc, machine, loops, settings)?;
    Ok(Printout::new(explained.text, explained.all_met))
}

/// Adds the object of a loop.
fn add_object(
    alloc: Global,
    objects: &mut Vec<Object>,
    machine: &Machine,
    prepared: &Prepared,
) -> Result<(), OutOfMemory>
    ensures ok { OnOk result ((object : Object) × IsObjectOf machine.now prepared.now object × (objects.new.items ≡ objects.old.items ++ object ∷ [])) }
{
    let object = object_of(alloc, machine, prepared)?;
    Ok(objects.push(object)?)
}

/// The objects of prepared loops.
fn objects_of(
    alloc: Global,
    machine: &Machine,
    prepared: &[Prepared],
) -> Result<Vec<Object>, OutOfMemory>
    ensures { IfOk result (λ objects. AllZip (IsObjectOf machine.now) prepared.now objects.items) }
{
    let mut objects = Vec::with_capacity(alloc, prepared.len())?;
    for index in 0..prepared.len() {
        match add_object(alloc, &mut objects, machine, &prepared[index]) {
            Ok(()) => {}
            Err(fault) => return Err(fault),
        }
    }
    Ok(objects)
}

/// The objects of loops, in order, by the ratio and the ceiling of the settings. The calling thread makes all of them.
///
/// # Errors
/// The first loop with an opcode that the machine has no table for; and [`FileFault::Memory`], where memory was refused.
pub fn explain_objects(
    alloc: Global,
    machine: &Machine,
    loops: Vec<Loop>,
    settings: &Settings,
) -> Result<Vec<Object>, FileFault>
    ensures { AnswersOn (AreObjects settings.now.ratio settings.now.ceiling machine.now loops.items) (first_lacking machine.now loops.items) result }
{
    let prepared = prepare_all(alloc, machine, loops, settings)?;
    Ok(objects_of(alloc, machine, prepared.as_slice())?)
}

/// What `explain --format json` writes: a JSON object on one line, with how many loops have a kernel and how many have none.
///
/// # Errors
/// Those of [`explain_objects`].
pub fn explain_document(
    alloc: Global,
    machine: &Machine,
    loops: Vec<Loop>,
    settings: &Settings,
) -> Result<Printout, FileFault>
    ensures { AnswersOn (IsExplainDocument settings.now.ratio settings.now.ceiling machine.now loops.items) (first_lacking machine.now loops.items) result }
{
    let objects = explain_objects(alloc, machine, loops, settings)?;
    Ok(objects_document(alloc, objects.as_slice())?)
}

/// What `explain --format html` writes: the page that shows the document of [`explain_document`].
///
/// # Errors
/// Those of [`explain_objects`].
pub fn explain_page(
    alloc: Global,
    machine: &Machine,
    loops: Vec<Loop>,
    settings: &Settings,
) -> Result<Printout, FileFault>
    ensures { AnswersOn (IsExplainPage settings.now.ratio settings.now.ceiling machine.now loops.items) (first_lacking machine.now loops.items) result }
{
    let objects = explain_objects(alloc, machine, loops, settings)?;
    Ok(objects_page(alloc, objects.as_slice())?)
}
