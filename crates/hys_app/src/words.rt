ghost use Rattle.std.specs.Prelude.{◌≡◌, ◌≤◌, option_map, IfSome};
ghost use Rattle.hys_number.specs.Ops.{◌<ₙ◌, whole};
ghost use Rattle.std.specs.Ordering.{is_lt};
ghost use Rattle.hys_frac.specs.Compare.{number_cmp};
ghost use Rattle.hys_app.specs.Words.{check, compile, demo, migrate, plan, sim, tanks_of, text_of_tolerance, texts_of, tolerance_of, usual_tolerance as usual};
ghost use Rattle.hys_app.specs.Words.{check_form as checking, compile_form as compiling, demo_form as demonstrating, migrate_form as migrating, plan_form as planning, sim_form as simulating};

use hys_frac::Frac;

// The tolerance of guards without one of their own, where the words have none.
#[tactic(auto, using(crate::proofs::Tolerances::usual_fits, crate::proofs::Tolerances::usual_above))]
pub fn usual_tolerance() -> Frac
    ensures value { result ≡ usual }
    ensures above { whole 0 <ₙ result }
{
    match Frac::new(1, 1000) {
        Some(tolerance) => tolerance,
        None => Frac::whole(1),
    }
}

fn is_positive(number: Frac) -> bool
    ensures { result ≡ is_lt (number_cmp (whole 0) number) }
{
    Ord::cmp(&Frac::whole(0), &number).is_lt()
}

// What follows `eps=`.
fn text_of(word: &[u8]) -> Option<&[u8]>
    ensures { option_map (λ t. t.now) result ≡ text_of_tolerance word.now }
{
    match word {
        [b'e', b'p', b's', b'=', text @ ..] => Some(text),
        _ => None,
    }
}

// The tolerance that the word `eps=F` says.
#[tactic(auto, using(crate::proofs::Tolerances::read_above))]
fn read_tolerance(word: &str) -> Option<Frac>
    ensures value { result ≡ tolerance_of word.now }
    ensures above { IfSome result (λ t. whole 0 <ₙ t) }
{
    match text_of(word.as_bytes()) {
        None => None,
        Some(text) => match Frac::read(text) {
            Err(_) => None,
            Ok(tolerance) => {
                if is_positive(tolerance) {
                    Some(tolerance)
                } else {
                    None
                }
            }
        },
    }
}

// The source, the target and the tolerance of `compile SRC MLD` and of `compile SRC MLD eps=F`.
pub fn compile_form(words: &[String]) -> Option<(&str, &str, Frac)>
    ensures form { option_map (λ p. compile p.0.now p.1.now p.2) result ≡ compiling (texts_of words.now) }
    ensures above { IfSome result (λ p. whole 0 <ₙ p.2) }
{
    match words {
        [command, source, target] => {
            if command.as_str() == "compile" {
                Some((source.as_str(), target.as_str(), usual_tolerance()))
            } else {
                None
            }
        }
        [command, source, target, word] => {
            if command.as_str() == "compile" {
                match read_tolerance(word.as_str()) {
                    Some(tolerance) => Some((source.as_str(), target.as_str(), tolerance)),
                    None => None,
                }
            } else {
                None
            }
        }
        _ => None,
    }
}

// The source, the tables, the target and the tolerance of `sim SRC START INPUTS OUT` and of
// `sim SRC START INPUTS OUT eps=F`.
pub fn sim_form(words: &[String]) -> Option<(&str, &str, &str, &str, Frac)>
    ensures form { option_map (λ p. sim p.0.now p.1.now p.2.now p.3.now p.4) result ≡
        simulating (texts_of words.now) }
    ensures above { IfSome result (λ p. whole 0 <ₙ p.4) }
{
    match words {
        [command, source, start, inputs, target] => {
            if command.as_str() == "sim" {
                Some((
                    source.as_str(),
                    start.as_str(),
                    inputs.as_str(),
                    target.as_str(),
                    usual_tolerance(),
                ))
            } else {
                None
            }
        }
        [command, source, start, inputs, target, word] => {
            if command.as_str() == "sim" {
                match read_tolerance(word.as_str()) {
                    Some(tolerance) => Some((
                        source.as_str(),
                        start.as_str(),
                        inputs.as_str(),
                        target.as_str(),
                        tolerance,
                    )),
                    None => None,
                }
            } else {
                None
            }
        }
        _ => None,
    }
}

// The source, the request, the target and the tolerance of `plan SRC REQ ANS` and of
// `plan SRC REQ ANS eps=F`.
pub fn plan_form(words: &[String]) -> Option<(&str, &str, &str, Frac)>
    ensures form { option_map (λ p. plan p.0.now p.1.now p.2.now p.3) result ≡
        planning (texts_of words.now) }
    ensures above { IfSome result (λ p. whole 0 <ₙ p.3) }
{
    match words {
        [command, source, request, target] => {
            if command.as_str() == "plan" {
                Some((
                    source.as_str(),
                    request.as_str(),
                    target.as_str(),
                    usual_tolerance(),
                ))
            } else {
                None
            }
        }
        [command, source, request, target, word] => {
            if command.as_str() == "plan" {
                match read_tolerance(word.as_str()) {
                    Some(tolerance) => Some((
                        source.as_str(),
                        request.as_str(),
                        target.as_str(),
                        tolerance,
                    )),
                    None => None,
                }
            } else {
                None
            }
        }
        _ => None,
    }
}

// The matrix text, the request and the answer of `check MLD REQ ANS`.
pub fn check_form(words: &[String]) -> Option<(&str, &str, &str)>
    ensures form { option_map (λ p. check p.0.now p.1.now p.2.now) result ≡ checking (texts_of words.now) }
{
    match words {
        [command, matrices, request, answer] => {
            if command.as_str() == "check" {
                Some((matrices.as_str(), request.as_str(), answer.as_str()))
            } else {
                None
            }
        }
        _ => None,
    }
}

// A number of tanks, from 1 to 20.
fn read_tanks(word: &str) -> Option<u32>
    ensures value { result ≡ tanks_of word.now }
    ensures few { IfSome result (λ k. (1 ≤ k) × (k ≤ 20)) }
{
    match word {
        "1" => Some(1),
        "2" => Some(2),
        "3" => Some(3),
        "4" => Some(4),
        "5" => Some(5),
        "6" => Some(6),
        "7" => Some(7),
        "8" => Some(8),
        "9" => Some(9),
        "10" => Some(10),
        "11" => Some(11),
        "12" => Some(12),
        "13" => Some(13),
        "14" => Some(14),
        "15" => Some(15),
        "16" => Some(16),
        "17" => Some(17),
        "18" => Some(18),
        "19" => Some(19),
        "20" => Some(20),
        _ => None,
    }
}

// The number of tanks of `demo K`.
pub fn demo_form(words: &[String]) -> Option<u32>
    ensures form { option_map (λ k. demo k) result ≡ demonstrating (texts_of words.now) }
    ensures few { IfSome result (λ k. (1 ≤ k) × (k ≤ 20)) }
{
    match words {
        [command, word] => {
            if command.as_str() == "demo" {
                read_tanks(word.as_str())
            } else {
                None
            }
        }
        _ => None,
    }
}

// The old and the new name of `migrate OLD NEW`.
pub fn migrate_form(words: &[String]) -> Option<(&str, &str)>
    ensures form { option_map (λ p. migrate p.0.now p.1.now) result ≡ migrating (texts_of words.now) }
{
    match words {
        [command, old, new] => {
            if command.as_str() == "migrate" {
                Some((old.as_str(), new.as_str()))
            } else {
                None
            }
        }
        _ => None,
    }
}
