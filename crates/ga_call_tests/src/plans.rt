//! Plans of workers, by the names of their nodes.
use crate::values::node;
use ga_group::{Plan, PlanError};
use ga_place::Node;
use std::alloc::Global;
use std::test::Fail;

/// Groups of nodes, by their names.
fn groups(alloc: Global, names: &[&[u16]]) -> Result<Vec<Vec<Node>>, Fail> {
    let mut groups = Vec::new(alloc);
    for group in names {
        let mut nodes = Vec::new(alloc);
        for name in *group {
            nodes.push(node(*name)?)?;
        }
        groups.push(nodes)?;
    }
    Ok(groups)
}

/// A plan of groups of nodes, by their names.
pub fn plan(alloc: Global, names: &[&[u16]]) -> Result<Plan, Fail> {
    Ok(Plan::new(groups(alloc, names)?).map_err(|_| "no plan")?)
}

#[test]
fn refusals_by_name(rt: HostRuntime) -> Result<(), Fail> {
    let alloc = rt.alloc();
    let refused = Plan::new(Vec::new(alloc)).err().ok_or("a plan")?;
    assert!(rt; refused.0 == PlanError::NoWorker && refused.1.is_empty());
    let names: [&[u16]; 2] = [&[708, 609], &[709]];
    assert!(rt; plan(alloc, &names)?.into_groups() == groups(alloc, &names)?);
    Ok(())
}
