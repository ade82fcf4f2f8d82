//! Arrays are declared.

ghost use Rattle.std.specs.Prelude.{◌≡◌, ◌+◌, ◌<◌, ◌≤◌, ◌^◌, length, Some, IfOk, IfErr, IfSome, IfNone};
ghost use Rattle.std.specs.List.{AllByRecursion};
ghost use Rattle.pack_words.specs.GridShapes.{IsSize};
ghost use Rattle.program_meaning.specs.Declarations.{words_in};
ghost use Rattle.line_plans.specs.Fitting.{FitsSizes, AreAlike};
ghost use Rattle.line_plans.specs.Standing.{HasArrayMore, AreSizes};

use crate::declared::Declared;
use crate::grown::Grown;
use crate::halt::Halt;
use descriptor::Spread;

// One array more, of these sizes by rank, and the words of all arrays with it.
fn add_array(
    declared: Declared,
    spread: Option<Spread>,
    sizes: &[(u32, u32)],
    words: u64,
) -> Result<Declared, Halt>
    requires whole { length sizes.now ≡ declared.shapes.ranks }
    requires each { AllByRecursion IsSize sizes.now }
    requires fits { IfSome spread (λ s. FitsSizes declared.contexts declared.shapes.ranks sizes.now s) }
    requires alike { IfNone spread (AreAlike declared.shapes.ranks sizes.now) }
    requires room { length declared.spreads.items < 64 }
    requires words { words ≡ declared.words + words_in sizes.now }
    requires few { words ≤ 2 ^ 26 }
    ensures ok { IfOk result (λ after. HasArrayMore declared after spread sizes.now) }
    ensures err { IfErr result (λ e. e ≡ Halt.NoMemory) }
{
    let Declared {
        contexts,
        mut shapes,
        mut spreads,
        words: _,
    } = declared;
    let Ok(_number) = shapes.add(sizes) else {
        return Err(Halt::NoMemory);
    };
    let Ok(()) = spreads.push(spread) else {
        return Err(Halt::NoMemory);
    };
    Ok(Declared {
        contexts,
        shapes,
        spreads,
        words,
    })
}

/// One array more, of these sizes by rank, and the words of all arrays with it.
pub(crate) fn with_array(
    declared: Declared,
    spread: Option<Spread>,
    sizes: Vec<(u32, u32)>,
    words: u64,
) -> Result<Grown, Halt>
    requires whole { length sizes.items ≡ declared.shapes.ranks }
    requires each { AllByRecursion IsSize sizes.items }
    requires fits { IfSome spread (λ s. FitsSizes declared.contexts declared.shapes.ranks sizes.items s) }
    requires alike { IfNone spread (AreAlike declared.shapes.ranks sizes.items) }
    requires room { length declared.spreads.items < 64 }
    requires words { words ≡ declared.words + words_in sizes.items }
    requires few { words ≤ 2 ^ 26 }
    ensures ok { IfOk result (λ x. HasArrayMore declared x.declared spread sizes.items) }
    ensures sizes { IfOk result (λ x. x.sizes ≡ Some sizes) }
    ensures each { IfOk result (λ x. AreSizes x.sizes) }
    ensures err { IfErr result (λ e. e ≡ Halt.NoMemory) }
{
    match add_array(declared, spread, &sizes, words) {
        Ok(declared) => Ok(Grown {
            declared,
            sizes: Some(sizes),
        }),
        Err(halt) => Err(halt),
    }
}
