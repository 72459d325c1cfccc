//! A line of the input, and what is printed of it.

use crate::echo::written;
use crate::fails::cut;
use crate::fault::CaseFault;
use crate::picks::picks_of;
use crate::play::trace_of;
use so_scene_json::read_scene;
use std::alloc::Global;

/// What is printed of a line.
pub(crate) fn answer(alloc: Global, line: &str) -> Result<Vec<u8>, CaseFault> {
    if line.starts_with('#') {
        return title(alloc, line);
    }
    let (kind, case) = line.split_once(' ').ok_or(CaseFault::Line)?;
    match kind {
        "play" => play(alloc, case),
        "fail" => fail(alloc, case),
        "echo" => Ok(written(alloc, &read_scene(alloc, case.as_bytes())?)?),
        _ => Err(CaseFault::Line),
    }
}

/// A title, as it is.
fn title(alloc: Global, line: &str) -> Result<Vec<u8>, CaseFault> {
    let mut text = Vec::new(alloc);
    text.extend_from_slice(line.as_bytes())?;
    text.extend_from_slice(b"\n")?;
    Ok(text)
}

/// The trace of a row of picks, which stands before its scene.
fn play(alloc: Global, case: &str) -> Result<Vec<u8>, CaseFault> {
    let (row, file) = case.split_once(' ').ok_or(CaseFault::Line)?;
    let scene = read_scene(alloc, file.as_bytes())?;
    let picks = picks_of(alloc, &scene, row)?;
    Ok(trace_of(alloc, &scene, &picks)?)
}

/// A simulation whose output fails at a call, which stands before the scene.
fn fail(alloc: Global, case: &str) -> Result<Vec<u8>, CaseFault> {
    let (call, file) = case.split_once(' ').ok_or(CaseFault::Line)?;
    let call = call.parse::<u64>().map_err(|_| CaseFault::Line)?;
    let scene = read_scene(alloc, file.as_bytes())?;
    cut(alloc, &scene, call)
}
