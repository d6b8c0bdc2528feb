// Questions to a model.
ghost use Rattle.std.specs.Prelude.{◌≡◌, ◌≤◌, length, IfOk, MatchResult};
ghost use Rattle.vimtrosh.specs.declared.command.Question.TheVariants.{Betti as AskBetti, Counts as AskCounts};
ghost use Rattle.vimtrosh.specs.Answers.{length_of, Answers};

use crate::answer::Answer;
use crate::command::Question;
use cell::kind::Kind;
use field::field::Field;
use kernel::fault::ModelFault;
use kernel::memory::{Entry, Memory};
use kernel::model::Model;
use kernel::model::questions::HIGHEST;

// The Betti numbers up to the highest standing dimension.
fn betti_numbers<F: Field, C: Kind>(
    model: &Model,
    m: &Memory<'_, F, C>,
) -> Result<Answer, ModelFault>
    ensures { IfOk result (λ answer. Answers model.now AskBetti answer) }
{
    let top = model.top_dimension(m)?;
    let mut numbers = [None; 16];
    // No clause bounds the highest dimension of a kind: there is room up to HIGHEST.
    for k in 0..=top.min(HIGHEST) {
        numbers[usize::from(k)] = Some(model.betti(m, k)?);
    }
    Ok(Answer::Betti { numbers })
}

fn counts<F: Field, C: Kind>(model: &Model, m: &Memory<'_, F, C>) -> Result<Answer, ModelFault>
    ensures { IfOk result (λ answer. Answers model.now AskCounts answer) }
{
    let pieces = model.betti(m, 0)?;
    let channels = model.betti(m, 1)?;
    let voids = model.betti(m, 2)?;
    Ok(Answer::Counts {
        pieces,
        channels,
        voids,
    })
}

// The answer to a question; a chain is written to the front of `out`.
pub fn ask<F: Field, C: Kind>(
    model: &Model,
    m: &Memory<'_, F, C>,
    question: Question,
    out: &mut [Entry],
) -> Result<Answer, ModelFault>
    ensures { MatchResult result (λ answer. Answers model.now question answer × (length_of answer ≤ length out.old)) (λ _. out.new ≡ out.old) }
{
    match question {
        Question::Cells => Ok(Answer::Cells {
            count: model.cell_count(),
            entries: model.entries_in_use(),
        }),
        Question::Betti => betti_numbers(model, m),
        Question::BettiOf { dimension } => Ok(Answer::BettiOf {
            dimension,
            number: model.betti(m, dimension)?,
        }),
        Question::Counts => counts(model, m),
        Question::Cycle { dimension, place } => Ok(Answer::Cycle {
            length: model.cycle(m, dimension, place, out)?,
        }),
    }
}
