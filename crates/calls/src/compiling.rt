// The image and the query as the words that all else reads.
ghost use Rattle.std.specs.Prelude.{◌≡◌, false, ◌*◌, ◌<◌, length};
ghost use Rattle.std.proofs.Math.Option.{none};
ghost use Rattle.calls.specs.Called.{Completed, NamesOf, PlanOf, PlansOf, TypesOf, is_alone_lem};
ghost use Rattle.compiled.specs.Copies.{GraphFilled};
ghost use Rattle.compiled.specs.Derived.{graph_words, plan_words, watched_in};
ghost use Rattle.compiled.specs.Sound.{Lawful};
ghost use Rattle.meaning.specs.Image.{image_fault};
ghost use Rattle.meaning.specs.QueryWords.{bad_layout_lem, parts_of};
ghost use Rattle.parts.specs.Shapes.{ShapeIs};
ghost use Rattle.plan.specs.Ready.{Ready};
ghost use Rattle.query.specs.Fine.{Accepted};

use bounds::fill_lengths;
use compiled::{PLAN_WORDS, fill_graph, fill_part};
use image::sections_of;
use parts::Shape;
use plan::fill_plan;
use query::{part_at, parts, type_code};
use reach::fill_onward;

// The graph of an accepted image.
pub fn compile_graph(image: &[u8], graph: &mut [u64])
    requires { (image_fault image.now ≡ none) × (length graph.old ≡ graph_words) }
    ensures { GraphFilled image.now graph.new }
{
    let s = sections_of(image);
    fill_graph(image, s, graph);
}

// What only a listing asks of a plan, put into it.
fn complete(graph: &[u64], plan: &mut [u64])
    requires { Ready graph.now plan.old × (length plan.old ≡ plan_words) × (watched_in plan.old ≡ 0) }
    ensures { Completed graph.now plan.old plan.new }
{
    fill_lengths(plan);
    fill_onward(graph, plan);
}

// The plan of the part i. listed: for a page call; a judge does without what only a listing asks.
pub fn compile_part(query: &[u16], i: usize, graph: &[u64], plan: &mut [u64], listed: bool)
    requires { Accepted query.now × (i < length (parts_of query.now)) × Lawful graph.now × (length plan.old ≡ plan_words) }
    ensures { PlanOf query.now i graph.now plan.new }
{
    let p = part_at(query, i);
    let from = p.from;
    let to = p.to;
    fill_part(&query[from..to], p.restrictor as u64, plan);
    fill_plan(graph, plan);
    if listed {
        complete(graph, plan);
    }
}

// The plans of all parts, as each is compiled.
pub fn compile_parts(query: &[u16], graph: &[u64], plans: &mut [u64], listed: bool)
    requires { Accepted query.now × Lawful graph.now × (length plans.old ≡ 4 * plan_words) }
    ensures { PlansOf query.now graph.now plans.new }
{
    let n = parts(query);
    for i in 0..n {
        let from = i * PLAN_WORDS;
        let to = from + PLAN_WORDS;
        compile_part(query, i, graph, &mut plans[from..to], listed);
    }
}

// The path names of the parts.
fn names_of(query: &[u16]) -> [u16; 4]
    requires { bad_layout_lem query.now ≡ false }
    ensures { NamesOf query.now result }
{
    let n = parts(query);
    let mut names = [0u16; 4];
    for i in 0..n {
        let p = part_at(query, i);
        names[i] = p.name as u16;
    }
    names
}

// The types that the parts give together.
fn types_of(query: &[u16]) -> [u64; 9]
    requires { Accepted query.now }
    ensures { TypesOf query.now result }
{
    let mut types = [0u64; 9];
    for x in 1..9 {
        types[x] = type_code(query, x);
    }
    types
}

// All else of the query: how many parts, their names, their types.
pub fn shape_of(query: &[u16]) -> Shape
    requires { Accepted query.now }
    ensures { ShapeIs (parts_of query.now) result }
{
    let names = names_of(query);
    let types = types_of(query);
    Shape {
        parts: parts(query),
        names,
        types,
    }
}

// Whether the query has one part without a name.
pub fn is_alone(query: &[u16]) -> bool
    requires { bad_layout_lem query.now ≡ false }
    ensures { result ≡ is_alone_lem (parts_of query.now) }
{
    parts(query) == 1 && part_at(query, 0).name == 0
}
