//! Parts of cores, worked out by hand, and how many there are of large networks.

ghost use Rattle.std.specs.Prelude.{◌≡◌, ◌≤◌, ◌<◌, ◌^◌, ◌+◌, IsTrue, length};
ghost use Rattle.order_ints.specs.OrderRange.{IsBounded};
ghost use Rattle.core_cost.specs.Saturated.{saturated};
ghost use Rattle.core_forms.specs.declared.form.Core.TheVariants.{Sum3};
ghost use Rattle.core_forms.specs.WellFormed.{IsWellFormed};
ghost use Rattle.core_forms.specs.Cost.{cost_of};
ghost use Rattle.core_forms.specs.Cores.{AreWellFormed};
ghost use Rattle.network_encode.specs.NetworkParts.{IsSplit, cost_by_parts};
ghost use Rattle.decompose.specs.PartsOf.{HasParts};

use crate::network_rows::{FORMS, NETWORKS};
use crate::part_rows::{DIFFERENCES, ORDERS, SUMS};
use bee_text::{push_bytes, push_number};
use core_cost::{common_divisor, ladder_cost, network_cost};
use core_forms::{Core, cost, shape};
use core_words::{core_of, is_core_below, push_core};
use order_ints::OrdInt;
use part_base::Parts;
use std::alloc::{AllocError, Global};
use std::process::Abort;
use std::test::Fail;

/// A core, and the number of its fresh variables, which are those from 20 on, with its parts.
pub(super) type Row = (&'static str, &'static str);

/// A sum, how many fresh variables and parts its network has, what the parts cost, and what the sum costs.
static FIGURES: [(&str, (u32, usize, u128, u128)); 4] = [
    ("Sum3 0..12@1 0..12@13 12", (46, 16, 999, 1045)),
    ("Sum3 0..10@1 0..14@11 12", (46, 16, 987, 1033)),
    ("Sum3 0..13@1 0..12@14 12", (49, 17, 1066, 1115)),
    ("Sum3 0..20@1 0..20@21 20", (78, 24, 2151, 2229)),
];

/// Whether a sum has a network that is small.
fn is_merged(a: &OrdInt, b: &OrdInt, c: &OrdInt) -> bool
    requires { IsBounded a.now × IsBounded b.now }
    ensures form { IsTrue result → IsSplit (Sum3 a.now b.now c.now) }
    ensures room { IsTrue result → cost_by_parts (Sum3 a.now b.now c.now) < 4000000 }
{
    let (first, second) = (shape(a), shape(b));
    let unit = common_divisor(first.divisor, second.divisor);
    if unit == 0 {
        return false;
    }
    let (n, m, steps) = (first.span / unit, second.span / unit, c.steps.len() as u128);
    n >= 1
        && m >= 1
        && (n > 1 || m > 1)
        && network_cost(n, m, steps) < 1_000_000
        && ladder_cost(first.steps) < 1_000_000
        && ladder_cost(second.steps) < 1_000_000
        && ladder_cost(steps) < 1_000_000
}

/// Whether a core of a given cost has a network, which is small.
fn has_network(core: &Core, cost: u128) -> bool
    requires well_formed { IsWellFormed core.now }
    requires cost { cost ≡ saturated (cost_of core.now) }
    ensures form { IsTrue result → IsSplit core.now }
    ensures room { IsTrue result → cost_by_parts core.now < 4000000 }
{
    if cost > 1_000_000 {
        return false;
    }
    match core {
        Core::Parity(atoms, _) => atoms.len() >= 4,
        Core::Amo(atoms) => atoms.len() >= 5,
        Core::Count(_, _) => true,
        Core::Sum3(a, b, c) => is_merged(a.get(), b.get(), c.get()),
        _ => false,
    }
}

/// Whether a core is of a form over lists of integers that has parts.
fn has_list(core: &Core) -> bool
    ensures { IsTrue result → HasParts core.now }
{
    match core {
        Core::Sum(_, _) | Core::AllDiff(_, _) | Core::Lex(_, _, _, _) => true,
        _ => false,
    }
}

/// The parts of a core that is lent, and of one that is used up.
fn split(rt: &impl Abort, alloc: Global, core: Core) -> Result<(Parts, Parts), AllocError>
    requires { IsWellFormed core }
{
    let cost = cost(alloc, &core)?;
    assert!(rt; is_core_below(&core, 20));
    assert!(rt; cost < 1_000_000);
    if has_list(&core) {
        let lent = decompose::parts(alloc, &core, 20)?;
        return Ok((lent, decompose::parts_from(alloc, core, 20)?));
    }
    assert!(rt; has_network(&core, cost));
    let lent = network_encode::parts(alloc, &core, 20)?;
    Ok((lent, network_encode::parts_from(alloc, core, 20)?))
}

/// Parts in words.
fn shown(alloc: Global, parts: &Parts) -> Result<Vec<u8>, AllocError> {
    let mut text = Vec::new(alloc);
    push_number(&mut text, u128::from(parts.fresh))?;
    for core in parts.cores.as_slice() {
        push_bytes(&mut text, b"; ")?;
        push_core(&mut text, core)?;
    }
    Ok(text)
}

/// Tests a row.
fn check_row(rt: &impl Abort, alloc: Global, row: &Row) -> Result<(), Fail> {
    let core = core_of(alloc, row.0)?;
    let (lent, used_up) = split(rt, alloc, core)?;
    let (lent, used_up) = (shown(alloc, &lent)?, shown(alloc, &used_up)?);
    assert_eq!(rt; lent.as_slice(), row.1.as_bytes(), "{}", row.0);
    assert_eq!(rt; used_up.as_slice(), row.1.as_bytes(), "{}", row.0);
    Ok(())
}

#[test]
fn parts_are_those_of_the_form(rt: HostRuntime) -> Result<(), Fail> {
    for rows in [
        FORMS.as_slice(),
        NETWORKS.as_slice(),
        SUMS.as_slice(),
        DIFFERENCES.as_slice(),
        ORDERS.as_slice(),
    ] {
        for row in rows {
            check_row(&rt, rt.alloc(), row)?;
        }
    }
    Ok(())
}

/// The costs of parts, added up.
fn costs(alloc: Global, cores: &[Core]) -> Result<u128, AllocError>
    requires { AreWellFormed cores.now }
{
    let Some((first, rest)) = cores.split_first() else {
        return Ok(0);
    };
    let first = cost(alloc, first)?;
    Ok(first.saturating_add(costs(alloc, rest)?))
}

/// The figures of a sum.
fn figures(
    rt: &impl Abort,
    alloc: Global,
    core: Core,
) -> Result<(u32, usize, u128, u128), AllocError>
    requires { IsWellFormed core }
{
    let whole = cost(alloc, &core)?;
    assert!(rt; is_core_below(&core, 100));
    assert!(rt; has_network(&core, whole));
    let parts = network_encode::parts_from(alloc, core, 100)?;
    let cores = parts.cores.as_slice();
    Ok((parts.fresh, cores.len(), costs(alloc, cores)?, whole))
}

#[test]
fn networks_cost_what_is_counted(rt: HostRuntime) -> Result<(), Fail> {
    for (text, wanted) in FIGURES {
        let core = core_of(rt.alloc(), text)?;
        let found = figures(&rt, rt.alloc(), core)?;
        assert_eq!(&rt; found, wanted, "{text}");
    }
    Ok(())
}
