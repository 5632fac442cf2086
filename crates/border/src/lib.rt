// The jobs for programs in other languages. A tree is lent as its three arrays of 256; the answer's number is handed
// back, 0 for acceptance, and the two values that it carries are written beside it. What C lends stays one parameter each,
// as include/routes.h has it.
#![tactic(auto)]

ghost use Rattle.std.specs.Prelude.{◌≡◌};
ghost use Rattle.rules.specs.Refusals.{judge_links, judge_tree};
ghost use Rattle.rules.specs.Jobs.{Built, Updated, Pathed};
ghost use Rattle.batch.specs.Rows.{rows_of_columns};
ghost use Rattle.stream.specs.Records.{read_at};
ghost use Rattle.plain.specs.Verdicts.{InNumbers};
ghost use Rattle.plain.specs.Readings.{HandedBack};
ghost use Rattle.rules.specs.Columns.{table, arrays};

use batch::Columns;
use rules::{Arrays, Links};

#[unsafe(no_mangle)]
pub extern "C" fn routes_judge_links(
    nodes: usize,
    root: usize,
    starts: &[u16],
    ends: &[u16],
    costs: &[u16],
    values: &mut [u16; 2],
) -> u16
    ensures { InNumbers (λ v. v ≡ judge_links (table nodes root starts.now ends.now costs.now)) result values.new }
{
    let links = Links {
        nodes,
        root,
        starts,
        ends,
    };
    plain::tell(links::judge_links(&links, costs), values)
}

#[unsafe(no_mangle)]
pub extern "C" fn routes_judge_tree<'a>(
    nodes: usize,
    root: usize,
    starts: &[u16],
    ends: &[u16],
    costs: &[u16],
    dist: &'a [u32; 256],
    parent: &'a [u16; 256],
    first: &'a [u16; 256],
    values: &mut [u16; 2],
) -> u16
    ensures { InNumbers (λ v. v ≡ judge_tree (table nodes root starts.now ends.now costs.now) (arrays dist.now parent.now first.now)) result values.new }
{
    let links = Links {
        nodes,
        root,
        starts,
        ends,
    };
    let tree = Arrays {
        dist,
        parent,
        first,
    };
    plain::tell(fit::judge_rows(&links, costs, &tree), values)
}

#[unsafe(no_mangle)]
pub extern "C" fn routes_build(
    nodes: usize,
    root: usize,
    starts: &[u16],
    ends: &[u16],
    costs: &[u16],
    dist: &mut [u32; 256],
    parent: &mut [u16; 256],
    first: &mut [u16; 256],
    values: &mut [u16; 2],
) -> u16
    ensures { InNumbers (λ v. Built (table nodes root starts.now ends.now costs.now) v (arrays dist.new parent.new first.new)) result values.new }
{
    let links = Links {
        nodes,
        root,
        starts,
        ends,
    };
    plain::tell(build::build(&links, costs, dist, parent, first), values)
}

#[unsafe(no_mangle)]
pub extern "C" fn routes_update(
    nodes: usize,
    root: usize,
    starts: &[u16],
    ends: &[u16],
    costs: &mut [u16],
    changed: &[u16],
    newcosts: &[u16],
    dist: &mut [u32; 256],
    parent: &mut [u16; 256],
    first: &mut [u16; 256],
    list: &mut [u16],
    count: &mut usize,
    values: &mut [u16; 2],
) -> u16
    ensures { InNumbers (λ v. Updated (table nodes root starts.now ends.now costs.old) (arrays dist.old parent.old first.old) (rows_of_columns changed.now newcosts.now) list.old v (arrays dist.new parent.new first.new) costs.new list.new count.new) result values.new }
{
    let links = Links {
        nodes,
        root,
        starts,
        ends,
    };
    let batch = Columns {
        links: changed,
        costs: newcosts,
    };
    plain::tell_count(
        update::update(&links, costs, &batch, dist, parent, first, list),
        count,
        values,
    )
}

#[unsafe(no_mangle)]
pub extern "C" fn routes_path<'a>(
    nodes: usize,
    root: usize,
    starts: &'a [u16],
    ends: &[u16],
    costs: &[u16],
    dist: &'a [u32; 256],
    parent: &'a [u16; 256],
    first: &'a [u16; 256],
    node: usize,
    list: &mut [u16],
    count: &mut usize,
    values: &mut [u16; 2],
) -> u16
    ensures { InNumbers (λ v. Pathed (table nodes root starts.now ends.now costs.now) (arrays dist.now parent.now first.now) node list.old v list.new count.new) result values.new }
{
    let links = Links {
        nodes,
        root,
        starts,
        ends,
    };
    let tree = Arrays {
        dist,
        parent,
        first,
    };
    plain::tell_count(route::path(&links, costs, &tree, node, list), count, values)
}

#[unsafe(no_mangle)]
pub extern "C" fn routes_read(
    bytes: &[u8],
    place: usize,
    kind: &mut u8,
    numbers: &mut [u32; 3],
    next: &mut usize,
) -> u16
    ensures { HandedBack (read_at bytes.now place) result kind.new numbers.new next.new }
{
    plain::read(bytes, place, kind, numbers, next)
}
