//! Loops as JSON objects, and what is written of them.

ghost use Rattle.std.specs.Prelude.{◌≡◌, ◌==◌, ◌++◌, codes, IfOk, OnOk};
ghost use Rattle.std.specs.List.{flat_map, join_by};
ghost use Rattle.json_objects.specs.Documents.{document_of};
ghost use Rattle.report_page.specs.Pages.{page_of};
ghost use Rattle.explain_printouts.specs.declared.objects.Object.{Object};
ghost use Rattle.explain_printouts.specs.ExplainDocuments.{IsObjectOf, document_text, number_failed, number_met};

use crate::object::push_prepared_json;
use json_objects::{push_head, push_tail};
use loop_schedules::Prepared;
use machine::{Machine, OutOfMemory};
use report_page::push_page;
use std::alloc::Global;
use writing::Text;
use written::Printout;

/// A loop as a JSON object.
#[derive(Drop)]
pub struct Object {
    pub text: Vec<u8>,
    /// Whether the loop has a kernel.
    pub met: bool,
}

/// The object of a loop that is prepared for the machine, as [`push_prepared_json`] writes it.
///
/// # Errors
/// Memory was refused; or the machine has no table for an opcode of the loop, which was then prepared for another machine.
pub fn object_of(
    alloc: Global,
    machine: &Machine,
    prepared: &Prepared,
) -> Result<Object, OutOfMemory>
    ensures { IfOk result (IsObjectOf machine.now prepared.now) }
{
    let mut text = Vec::new(alloc);
    match push_prepared_json(alloc, &mut text, machine, prepared) {
        Ok(choice) => Ok(Object {
            text,
            met: choice.is_met(),
        }),
        Err(_) => Err(std::alloc::AllocError),
    }
}

/// Appends an object after a comma.
fn push_other(text: &mut Vec<u8>, object: &Object) -> Result<(), OutOfMemory>
    ensures ok { OnOk result (text.new.items ≡ text.old.items ++ (codes "," ++ object.now.text.items)) }
{
    text.push_piece(",")?;
    text.extend_from_slice(object.text.as_slice())
}

/// Appends objects, each after a comma.
fn push_others(text: &mut Vec<u8>, objects: &[Object]) -> Result<(), OutOfMemory>
    ensures ok { OnOk result (text.new.items ≡ text.old.items ++ flat_map (λ (object : Object). codes "," ++ object.text.items) objects.now) }
{
    for object in objects {
        push_other(text, object)?;
    }
    Ok(())
}

/// Appends objects, with a comma between two.
fn push_objects(text: &mut Vec<u8>, objects: &[Object]) -> Result<(), OutOfMemory>
    ensures ok { OnOk result (text.new.items ≡ text.old.items ++ join_by (λ (object : Object). object.text.items) (codes ",") objects.now) }
{
    let Some((first, others)) = objects.split_first() else {
        return Ok(());
    };
    text.extend_from_slice(first.text.as_slice())?;
    push_others(text, others)
}

/// How many loops have a kernel.
fn number_met(objects: &[Object]) -> u64
    ensures { result ≡ number_met objects.now }
{
    objects.iter().filter(|object| object.met).count() as u64
}

/// How many loops have none.
fn number_failed(objects: &[Object]) -> u64
    ensures { result ≡ number_failed objects.now }
{
    objects.iter().filter(|object| !object.met).count() as u64
}

/// The document of objects.
fn document_text(alloc: Global, objects: &[Object]) -> Result<Vec<u8>, OutOfMemory>
    ensures { IfOk result (λ text. text.items ≡ document_text objects.now) }
{
    let mut text = Vec::new(alloc);
    push_head(&mut text, number_failed(objects))?;
    push_objects(&mut text, objects)?;
    push_tail(&mut text, number_met(objects))?;
    Ok(text)
}

/// The document of loops, with a line feed.
///
/// # Errors
/// Memory was refused.
pub fn objects_document(alloc: Global, objects: &[Object]) -> Result<Printout, OutOfMemory>
    ensures text { IfOk result (λ w. w.text ≡ document_text objects.now) }
    ensures met { IfOk result (λ w. w.all_met ≡ (number_failed objects.now == 0)) }
{
    let text = document_text(alloc, objects)?;
    Ok(Printout::new(text, number_failed(objects) == 0))
}

/// The page that shows the document of loops.
///
/// # Errors
/// Memory was refused.
pub fn objects_page(alloc: Global, objects: &[Object]) -> Result<Printout, OutOfMemory>
    ensures text { IfOk result (λ w. w.text ≡ page_of (document_text objects.now)) }
    ensures met { IfOk result (λ w. w.all_met ≡ (number_failed objects.now == 0)) }
{
    let document = document_text(alloc, objects)?;
    let mut page = Vec::new(alloc);
    push_page(&mut page, document.as_slice())?;
    Ok(Printout::new(page, number_failed(objects) == 0))
}
