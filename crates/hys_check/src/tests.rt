use crate::examples::{Node, best, number, plan, tree};
use crate::{At, CheckWhy, Verdict, check};
use hys_lin::{Lost, Op};
use hys_tree::{Claim, Why};
use std::alloc::{AllocError, Global};
use std::test::Fail;

// What is claimed: a least cost with its point, that none exists, or a bound with the cost of the
// same point where there is a best.
#[derive(Clone, Copy)]
enum Claimed<'t> {
    Least(&'t [i64], i64),
    None,
    AtLeast(i64, &'t [i64], i64),
    Bound(i64),
}

fn claim(alloc: Global, claimed: Claimed<'_>) -> Result<Claim, AllocError> {
    match claimed {
        Claimed::Least(values, cost) => Ok(Claim::Least(best(alloc, values, cost)?)),
        Claimed::None => Ok(Claim::NoneExists),
        Claimed::AtLeast(bound, values, cost) => Ok(Claim::AtLeast {
            bound: number(bound),
            best: Some(best(alloc, values, cost)?),
            why: Why::Spent(3),
        }),
        Claimed::Bound(bound) => Ok(Claim::AtLeast {
            bound: number(bound),
            best: None,
            why: Why::Spent(3),
        }),
    }
}

fn verdict_on(alloc: Global, nodes: &[Node], claimed: Claimed<'_>) -> Result<Verdict, AllocError> {
    if nodes.len() > 9 {
        return Ok(Verdict::Yes);
    }
    let problem = plan(alloc)?;
    let tree = tree(alloc, nodes)?;
    let claim = claim(alloc, claimed)?;
    let verdict = check(alloc, &problem, &tree, &claim)?;
    Ok(verdict)
}

// Whether the verdict on the tree and the claim is the expected one.
fn is_answered(
    alloc: Global,
    nodes: &[Node],
    claimed: Claimed<'_>,
    expected: Verdict,
) -> Result<bool, AllocError> {
    match verdict_on(alloc, nodes, claimed) {
        Ok(verdict) => Ok(verdict == expected),
        Err(error) => Err(error),
    }
}

const POINT: [i64; 4] = [0, 1, 0, 3];

const NODES: [Node; 5] = [
    Node::Inner(1),
    Node::Cost(1, 1, 1),
    Node::Inner(2),
    Node::Cost(1, 1, 2),
    Node::Never(0, 1, 2),
];

const LEFT_OVER: [Node; 2] = [Node::Cost(1, 1, 0), Node::Cost(1, 1, 0)];

// The worked tree with another place.
fn with_place(place: usize, node: Node) -> [Node; 5] {
    let mut nodes = NODES;
    if place < 5 {
        nodes[place] = node;
    }
    nodes
}

fn no(place: u32, why: CheckWhy) -> Verdict {
    Verdict::No(At::Node(place), why)
}

fn below(place: u32, bound: i64, claimed: i64) -> Verdict {
    no(place, CheckWhy::Below(number(bound), number(claimed)))
}

#[test]
fn verdicts_on_places(rt: HostRuntime) -> Result<(), Fail> {
    let alloc = rt.alloc();
    let least = Claimed::Least(&POINT, -3);
    assert!(rt; is_answered(alloc, &NODES, least, Verdict::Yes)?);
    let sign = with_place(4, Node::Never(0, -1, 2));
    assert!(rt; is_answered(alloc, &sign, least, no(4, CheckWhy::Sign))?);
    let shallow = with_place(1, Node::Cost(1, 1, 0));
    assert!(rt; is_answered(alloc, &shallow, least, below(1, -5, -3))?);
    let large = with_place(1, Node::Cost(1, i64::MAX, 1));
    let lost = Lost {
        op: Op::Mul,
        left: number(i64::MAX),
        right: number(-3),
    };
    assert!(rt; is_answered(alloc, &large, least, no(1, CheckWhy::Range(lost)))?);
    let fixed = with_place(2, Node::Inner(1));
    assert!(rt; is_answered(alloc, &fixed, least, no(2, CheckWhy::Shape))?);
    let beyond = with_place(0, Node::Inner(4000000000));
    assert!(rt; is_answered(alloc, &beyond, least, no(0, CheckWhy::Shape))?);
    let free = with_place(4, Node::Never(0, 0, 2));
    assert!(rt; is_answered(alloc, &free, least, below(4, 0, 0))?);
    Ok(())
}

#[test]
fn verdicts_on_shapes(rt: HostRuntime) -> Result<(), Fail> {
    let alloc = rt.alloc();
    let least = Claimed::Least(&POINT, -3);
    assert!(rt; is_answered(alloc, &NODES[..4], least, no(4, CheckWhy::Shape))?);
    assert!(rt; is_answered(alloc, &[], least, no(0, CheckWhy::Shape))?);
    let bound = Claimed::Bound(-5);
    assert!(rt; is_answered(alloc, &LEFT_OVER, bound, no(1, CheckWhy::Shape))?);
    assert!(rt; is_answered(alloc, &LEFT_OVER[..1], bound, Verdict::Yes)?);
    assert!(rt;
        is_answered(
            alloc,
            &LEFT_OVER[..1],
            Claimed::None,
            no(0, CheckWhy::Shape)
        )?
    );
    let row = with_place(1, Node::Cost(2, 1, 1));
    assert!(rt; is_answered(alloc, &row, least, no(1, CheckWhy::Shape))?);
    let deep = with_place(1, Node::Cost(1, 1, 2));
    assert!(rt; is_answered(alloc, &deep, least, no(1, CheckWhy::Shape))?);
    Ok(())
}

#[test]
fn verdicts_on_claims(rt: HostRuntime) -> Result<(), Fail> {
    let alloc = rt.alloc();
    let wrong = Verdict::No(At::Claim, CheckWhy::Point);
    assert!(rt; is_answered(alloc, &NODES, Claimed::Least(&POINT, -4), wrong)?);
    assert!(rt; is_answered(alloc, &NODES, Claimed::Least(&[], -3), wrong)?);
    assert!(rt; is_answered(alloc, &NODES, Claimed::Least(&[0, 1, 0, 2], -3), wrong)?);
    assert!(rt; is_answered(alloc, &NODES, Claimed::AtLeast(-3, &POINT, -2), wrong)?);
    assert!(rt;
        is_answered(
            alloc,
            &NODES,
            Claimed::AtLeast(-4, &[0, 0, 1, 2], -2),
            Verdict::Yes
        )?
    );
    assert!(rt; is_answered(alloc, &NODES, Claimed::Bound(-2), below(3, -3, -2))?);
    Ok(())
}
