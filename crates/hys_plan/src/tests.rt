ghost use Rattle.std.specs.Prelude.{◌≡◌, ◌<◌, ◌≤◌, [], length};
ghost use Rattle.hys_lin.specs.Problem.{IsProblem};
ghost use Rattle.hys_relax.specs.BoundSum.{BoundFits};

use crate::examples::{never, switches};
use crate::plan;
use hys_frac::{Frac, List};
use hys_search::{BestBound, DepthFirst, Expanded, Picker, Search, Waiting};
use hys_tree::{Answer, Claim, TreePlace, Why};
use std::alloc::{AllocError, Global};
use std::test::Fail;

// ---- steps of a search over two switches
// Expands the waiting node at a place; none where there is none, or the nodes are spent.
fn advance(
    alloc: Global,
    search: &mut Search,
    nodes: u32,
    which: usize,
) -> Result<Option<Expanded>, AllocError>
    requires { search.old.limit ≡ nodes }
    ensures { search.new.limit ≡ nodes }
{
    if which >= search.waiting().len() || search.expanded() >= nodes {
        return Ok(None);
    }
    let expanded = search.expand(alloc, which)?;
    Ok(Some(expanded))
}

fn parts(number: Frac) -> (i64, i64) {
    (number.num(), number.den())
}

// What two expansions answer, with the paths after them, and the best cost.
#[derive(Drop)]
struct Steps {
    first: Option<Expanded>,
    root: List<(u32, u32)>,
    second: Option<Expanded>,
    path: List<(u32, u32)>,
    cost: Option<(i64, i64)>,
}

fn path_of(alloc: Global, search: &Search) -> Result<List<(u32, u32)>, AllocError> {
    let path = Vec::from_slice(alloc, search.path())?;
    Ok(List::of(path))
}

fn best_cost(search: &Search) -> Option<(i64, i64)> {
    match search.found() {
        None => None,
        Some(best) => Some(parts(best.cost)),
    }
}

fn two_steps(alloc: Global, which: usize) -> Result<Steps, AllocError> {
    let problem = switches(alloc)?;
    let mut search = Search::new(alloc, problem, 7)?;
    let first = advance(alloc, &mut search, 7, 0)?;
    let root = path_of(alloc, &search)?;
    let second = advance(alloc, &mut search, 7, which)?;
    let path = path_of(alloc, &search)?;
    let cost = best_cost(&search);
    Ok(Steps {
        first,
        root,
        second,
        path,
        cost,
    })
}

const ROOT: [(u32, u32); 3] = [(1, 2), (0, 3), (1, 1)];

const LOW: [(u32, u32); 4] = [(1, 2), (0, 3), (1, 1), (1, 3)];

const HIGH: [(u32, u32); 4] = [(1, 2), (0, 3), (1, 1), (1, 1)];

#[test]
fn children_go_on(rt: HostRuntime) -> Result<(), Fail> {
    let alloc = rt.alloc();
    let high = two_steps(alloc, 0)?;
    assert_eq!(rt; high.first, Some(Expanded::Branched));
    assert_eq!(rt; high.root.items() == ROOT.as_slice(), true);
    assert_eq!(rt; high.second, Some(Expanded::Branched));
    assert_eq!(rt; high.path.items() == HIGH.as_slice(), true);
    assert_eq!(rt; high.cost, None);
    let low = two_steps(alloc, 1)?;
    assert_eq!(rt; low.second, Some(Expanded::Found));
    assert_eq!(rt; low.path.items() == LOW.as_slice(), true);
    assert_eq!(rt; low.cost, Some((-2, 1)));
    Ok(())
}

// ---- plans
// What a claim says: the least cost, that there is none, or how many nodes were spent with the bound.
#[derive(Clone, Copy, Debug, PartialEq, Eq)]
enum Told {
    Least(i64, i64),
    NoneExists,
    Spent(u32, i64, i64),
    Range,
}

fn tell(claim: &Claim) -> Told {
    match claim {
        Claim::Least(best) => Told::Least(best.cost.num(), best.cost.den()),
        Claim::NoneExists => Told::NoneExists,
        Claim::AtLeast { bound, why, .. } => match why {
            Why::Spent(nodes) => Told::Spent(*nodes, bound.num(), bound.den()),
            Why::Range { .. } => Told::Range,
        },
    }
}

fn best_first(alloc: Global, nodes: u32) -> Result<Answer, AllocError>
    requires some { 1 ≤ nodes }
    requires few { nodes ≤ 7 }
{
    let problem = switches(alloc)?;
    let mut picker = BestBound;
    plan(alloc, problem, nodes, &mut picker)
}

fn deep_first(alloc: Global, nodes: u32) -> Result<Answer, AllocError>
    requires some { 1 ≤ nodes }
    requires few { nodes ≤ 7 }
{
    let problem = switches(alloc)?;
    let mut picker = DepthFirst;
    plan(alloc, problem, nodes, &mut picker)
}

// Whether the claim is the least cost, or that the nodes were spent.
fn is_expected(claim: &Claim, nodes: u32) -> bool {
    match tell(claim) {
        Told::Least(num, den) => num == -3 && den == 1,
        Told::Spent(spent, _, _) => spent == nodes && nodes < 7,
        Told::NoneExists | Told::Range => false,
    }
}

fn number_of(claim: &Claim, place: usize) -> Option<(i64, i64)> {
    match claim {
        Claim::Least(best) => match best.point.values.items().get(place) {
            Some(number) => Some(parts(*number)),
            None => None,
        },
        Claim::NoneExists | Claim::AtLeast { .. } => None,
    }
}

#[test]
fn plans_with_few_nodes(rt: HostRuntime) -> Result<(), Fail> {
    let alloc = rt.alloc();
    for nodes in 1..8 {
        let best = best_first(alloc, nodes)?;
        assert_eq!(rt; is_expected(&best.claim, nodes), true);
        let deep = deep_first(alloc, nodes)?;
        assert_eq!(rt; is_expected(&deep.claim, nodes), true);
    }
    let first = best_first(alloc, 1)?;
    assert_eq!(rt; tell(&first.claim), Told::Spent(1, -4, 1));
    let last = best_first(alloc, 7)?;
    assert_eq!(rt; tell(&last.claim), Told::Least(-3, 1));
    assert_eq!(rt; number_of(&last.claim, 0), Some((0, 1)));
    assert_eq!(rt; number_of(&last.claim, 1), Some((1, 1)));
    assert_eq!(rt; number_of(&last.claim, 2), Some((0, 1)));
    assert_eq!(rt; number_of(&last.claim, 3), Some((3, 1)));
    Ok(())
}

// Whether the answer is a tree of one leaf that shows that there is no solution.
fn is_one_never(answer: &Answer) -> bool {
    let places = answer.tree.places.items();
    if places.len() != 1 {
        return false;
    }
    match &places[0] {
        TreePlace::Never(_, depth) => *depth == 0,
        TreePlace::Inner(_) | TreePlace::Cost(_, _) => false,
    }
}

#[test]
fn pickers_and_an_impossible_row(rt: HostRuntime) -> Result<(), Fail> {
    let alloc = rt.alloc();
    let best = best_first(alloc, 2)?;
    let deep = deep_first(alloc, 2)?;
    assert_eq!(rt; best.tree == deep.tree, false);
    let problem = never(alloc)?;
    let none = plan(alloc, problem, 1, &mut BestBound)?;
    assert_eq!(rt; tell(&none.claim), Told::NoneExists);
    assert_eq!(rt; none.expanded, 1);
    assert_eq!(rt; is_one_never(&none), true);
    Ok(())
}

// ---- a picker that keeps its answers
#[derive(Drop)]
struct Recorder {
    answers: [usize; 8],
    count: usize,
    last: bool,
}

impl Picker for Recorder {
    fn pick(&mut self, waiting: &[Waiting]) -> usize
        requires { 0 < length waiting.now }
        ensures { result < length waiting.now }
    {
        let which = if self.last { waiting.len() - 1 } else { 0 };
        if self.count < 8 {
            self.answers[self.count] = which;
            self.count += 1;
        }
        which
    }
}

// Whether a new search that expands just the kept answers comes to the same tree and count.
fn is_replayed(
    alloc: Global,
    nodes: u32,
    recorder: &Recorder,
    answer: &Answer,
) -> Result<bool, AllocError>
    requires some { 1 ≤ nodes }
    requires few { nodes ≤ 7 }
{
    let problem = switches(alloc)?;
    let mut search = Search::new(alloc, problem, nodes)?;
    for k in 0..8 {
        if k < recorder.count {
            let _ = advance(alloc, &mut search, nodes, recorder.answers[k])?;
        }
    }
    let tree = search.tree(alloc)?;
    Ok(tree == answer.tree && search.expanded() == answer.expanded)
}

fn replays(alloc: Global, nodes: u32, last: bool) -> Result<bool, AllocError>
    requires some { 1 ≤ nodes }
    requires few { nodes ≤ 7 }
{
    let mut recorder = Recorder {
        answers: [0; 8],
        count: 0,
        last,
    };
    let problem = switches(alloc)?;
    let answer = plan(alloc, problem, nodes, &mut recorder)?;
    if recorder.count != answer.expanded as usize {
        return Ok(false);
    }
    is_replayed(alloc, nodes, &recorder, &answer)
}

#[test]
fn picks_are_expanded(rt: HostRuntime) -> Result<(), Fail> {
    let alloc = rt.alloc();
    for nodes in 1..8 {
        assert_eq!(rt; replays(alloc, nodes, false)?, true);
        assert_eq!(rt; replays(alloc, nodes, true)?, true);
    }
    Ok(())
}
