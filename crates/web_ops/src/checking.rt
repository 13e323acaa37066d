//! Checks of what a path leads to.
ghost use Rattle.std.specs.Prelude.{◌≡◌, IfOk, ⊤, ◌==◌, ◌&&◌, not, length};
ghost use Rattle.grid.specs.Stamped.{IsStamped};
ghost use Rattle.chk_file.specs.Cached.{IsCacheCurrent};
ghost use Rattle.caps.specs.Weakening.{weakened};
ghost use Rattle.caps.specs.Kinds.{is_verify_cap};
ghost use Rattle.web_ops.specs.Answers.{health_text, health_reply, check_reply};
ghost use Rattle.web_ops.specs.Replied.{IsHealth, IsAnsweredFrom};
ghost use Rattle.path_walk.specs.Amid.{IsGivenAmid};
ghost use Rattle.web_ops.specs.Amid.{IsHealthAmid, IsCheckBy};
ghost use Rattle.web_ops.specs.Calls.{IsFound, IsFoundAmid};

use crate::node::walk_refused;
use caps::{Cap, is_verify_cap, weaken};
use chk_file::{Cache, Health};
use grid::Grid;
use health_json::{check_json, literal_check_json, mapped_check_json};
use path_walk::{Names, walk};
use share_store::Store;
use std::alloc::{AllocError, Global};
use web_replies::{Failure, Reply, failure_reply, json_reply};

/// How healthy what the names lead to from a cap is, with a map of where its shares are, or without.
pub fn check<S: Store>(
    alloc: Global,
    grid: &mut Grid<S>,
    cache: &mut Cache,
    cap: &Cap,
    names: &Names,
    verify: bool,
    mapped: bool,
) -> Result<Reply, AllocError>
    ensures fresh { IsCacheCurrent cache.old grid.old → IsCacheCurrent cache.new grid.new }
    ensures found { IsFound (IsCacheCurrent cache.old grid.old)
        (IsAnsweredFrom (is_verify_cap cap.now && not (length names.now == 0))
        (λ end. IsHealth mapped (weakened end)) cap.now names.now)
        (λ look. check_reply mapped look cap.now names.now verify) result grid.old grid.new }
    ensures amid { IsFoundAmid (IsCheckBy (IsGivenAmid cache.old grid.old grid.new) grid.old grid.new mapped cap.now names.now verify)
        result cache.old cache.new grid.old grid.new }
{
    if leads_nowhere(cap, names) {
        return failure_reply(alloc, Failure::NotReadable);
    }
    match walk(alloc, grid, cache, cap, names) {
        Ok(end) => health(alloc, grid, cache, &end, verify, mapped),
        Err(fault) => walk_refused(alloc, &fault),
    }
}

/// Whether there are names behind a verify cap, from which none leads on.
fn leads_nowhere(cap: &Cap, names: &Names) -> bool
    ensures { result ≡ (is_verify_cap cap.now && not (length names.now == 0)) }
{
    is_verify_cap(cap) && names.as_slice().len() != 0
}

/// How healthy what a cap names is. What stands in its cap is healthy. Of the cache only what was prepared for a check is
/// used.
fn health<S: Store>(
    alloc: Global,
    grid: &mut Grid<S>,
    cache: &mut Cache,
    cap: &Cap,
    verify: bool,
    mapped: bool,
) -> Result<Reply, AllocError>
    ensures stamped { IsStamped grid.old grid.new }
    ensures cached { cache.new ≡ cache.old }
    ensures found { IsFound ⊤ (IsHealth mapped (weakened cap.now))
        (λ look. health_reply mapped look verify cap.now) result grid.old grid.new }
    ensures amid { IsFoundAmid (IsHealthAmid grid.old grid.new mapped verify (weakened cap.now))
        result cache.old cache.new grid.old grid.new }
{
    let Some(verify_cap) = weaken(cap) else {
        return Ok(json_reply(literal_check_json(alloc)?));
    };
    let health = chk_file::check(alloc, grid, cache, &verify_cap, verify)?;
    let text = health_json(alloc, &verify_cap.fields.si, &health, mapped)?;
    Ok(json_reply(text))
}

/// The JSON of the health of a storage index's file, with a map of where its shares are, or without.
fn health_json(
    alloc: Global,
    index: &[u8; 16],
    health: &Health,
    mapped: bool,
) -> Result<Vec<u8>, AllocError>
    ensures { IfOk result (λ text. text.items ≡ health_text mapped index.now health.now) }
{
    if mapped {
        mapped_check_json(alloc, index, health)
    } else {
        check_json(alloc, index, health)
    }
}
