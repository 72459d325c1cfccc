//! Dispatchers as values.

ghost use Rattle.std.specs.Prelude.{◌≡◌, ◌<◌, drop, length, slice_index_or, Some, None, option_map, IfOk};
ghost use Rattle.serde_json.specs.View.{view};
ghost use Rattle.so_scene.specs.Checked.{is_pool, has_quotes};
ghost use Rattle.so_scene_data.specs.ActData.{count_data};
ghost use Rattle.so_scene_data.specs.Canonical.{disp_data, disp_kind_word, fifo_word, list_data, of_pool, of_quoted};
ghost use Rattle.so_scene_data.specs.Fields.{disp_base};
ghost use Rattle.serde_json.specs.Data.{string};

use crate::fields::with_field;
use crate::operands::count_value;
use crate::words::text;
use serde_json::{Value, json};
use so_scene::{DispDef, DispKind, Fifo};
use std::alloc::{AllocError, Global};

fn kind_word(kind: DispKind) -> &'static str
    ensures { result.now ≡ disp_kind_word kind }
{
    match kind {
        DispKind::OneThread => "one_thread",
        DispKind::ActiveObj => "active_obj",
        DispKind::ActiveGroup => "active_group",
        DispKind::ThreadPool => "thread_pool",
        DispKind::AdvThreadPool => "adv_thread_pool",
        DispKind::StrictlyOrdered => "strictly_ordered",
        DispKind::QuotedRoundRobin => "quoted_round_robin",
        DispKind::OnePerPrio => "one_per_prio",
    }
}

fn fifo_word(fifo: Fifo) -> &'static str
    ensures { result.now ≡ fifo_word fifo }
{
    match fifo {
        Fifo::Cooperation => "cooperation",
        Fifo::Individual => "individual",
    }
}

fn is_pool(kind: DispKind) -> bool
    ensures { result ≡ is_pool kind }
{
    matches!(kind, DispKind::ThreadPool | DispKind::AdvThreadPool)
}

fn has_quotes(kind: DispKind) -> bool
    ensures { result ≡ has_quotes kind }
{
    matches!(kind, DispKind::QuotedRoundRobin)
}

fn fifo_value(alloc: Global, disp: &DispDef) -> Result<Option<Value>, AllocError>
    ensures { IfOk result (λ o. option_map view o ≡ of_pool disp.now.kind (string (fifo_word disp.now.fifo))) }
{
    if is_pool(disp.kind) {
        return Ok(Some(Value::try_from_str(alloc, fifo_word(disp.fifo))?));
    }
    Ok(None)
}

fn threads_value(disp: &DispDef) -> Option<Value>
    ensures { option_map view result ≡ of_pool disp.now.kind (count_data disp.now.threads) }
{
    if !is_pool(disp.kind) {
        return None;
    }
    Some(count_value(disp.threads))
}

fn count_at(counts: &[u32], k: usize) -> Value
    requires { k < length counts.now }
    ensures { view result ≡ count_data (slice_index_or counts.now k 0) }
{
    let count = counts[k];
    count_value(count)
}

fn counts_value(alloc: Global, counts: &[u32]) -> Result<Value, AllocError>
    ensures { IfOk result (λ v. view v ≡ list_data count_data counts.now) }
{
    let mut list = Vec::new(alloc);
    for k in 0..counts.len() {
        list.push(count_at(counts, k))?;
    }
    Ok(Value::Array(list))
}

fn quotes_value(alloc: Global, disp: &DispDef) -> Result<Option<Value>, AllocError>
    ensures { IfOk result (λ o. option_map view o ≡ of_quoted disp.now.kind (list_data count_data disp.now.quotes)) }
{
    if has_quotes(disp.kind) {
        return Ok(Some(counts_value(alloc, &disp.quotes)?));
    }
    Ok(None)
}

fn disp_base(alloc: Global, disp: &DispDef) -> Result<Value, AllocError>
    ensures { IfOk result (λ v. view v ≡ disp_base disp.now.kind disp.now.name disp.now.slots) }
{
    let kind = kind_word(disp.kind);
    let name = text(disp.name.bytes());
    let slots = disp.slots;
    json!(in alloc; {"kind": kind, "name": name, "slots": slots})
}

fn disp_value(alloc: Global, disp: &DispDef) -> Result<Value, AllocError>
    ensures { IfOk result (λ v. view v ≡ disp_data disp.now) }
{
    let value = disp_base(alloc, disp)?;
    let value = with_field(alloc, value, "fifo", fifo_value(alloc, disp)?)?;
    let value = with_field(alloc, value, "quotes", quotes_value(alloc, disp)?)?;
    with_field(alloc, value, "threads", threads_value(disp))
}

/// All but the first, which is `default`.
fn declared(disps: &[DispDef]) -> &[DispDef]
    ensures { result.now ≡ drop 1 disps.now }
{
    if disps.is_empty() {
        return &[];
    }
    &disps[1..]
}

fn list_value(alloc: Global, disps: &[DispDef]) -> Result<Value, AllocError>
    ensures { IfOk result (λ v. view v ≡ list_data disp_data disps.now) }
{
    let mut list = Vec::new(alloc);
    for disp in disps {
        list.push(disp_value(alloc, disp)?)?;
    }
    Ok(Value::Array(list))
}

/// The dispatchers that are declared, of all these.
pub(crate) fn dispatchers_value(alloc: Global, disps: &[DispDef]) -> Result<Value, AllocError>
    ensures { IfOk result (λ v. view v ≡ list_data disp_data (drop 1 disps.now)) }
{
    list_value(alloc, declared(disps))
}
