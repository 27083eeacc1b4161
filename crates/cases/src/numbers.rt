// Numbers, one a line. A line that is none, or is missing, ends the cases of the file.
use crate::error::CaseError;
use crate::stream::Source;

// A number that stands on a line of its own.
pub trait Number: Copy {
    // Reads the next line as such a number.
    fn read(source: &mut Source) -> Result<Self, CaseError>;
}

// A signed number.
impl Number for i32 {
    fn read(source: &mut Source) -> Result<i32, CaseError> {
        let line = source.line()?.ok_or(CaseError::Bad)?;
        line.signed().ok_or(CaseError::Bad)
    }
}

// A number of at most 32 bits, without a sign.
impl Number for u32 {
    fn read(source: &mut Source) -> Result<u32, CaseError> {
        let line = source.line()?.ok_or(CaseError::Bad)?;
        line.word().ok_or(CaseError::Bad)
    }
}

// The same as a count of the machine.
impl Number for usize {
    fn read(source: &mut Source) -> Result<usize, CaseError> {
        // A word always fits.
        Ok(u32::read(source)? as usize)
    }
}

// Reads how many numbers, cases or ticks follow; a number below 0 is refused.
pub fn count(source: &mut Source) -> Result<usize, CaseError> {
    usize::try_from(i32::read(source)?).map_err(|_| CaseError::Bad)
}

// Reads as many numbers as there is room for.
pub fn fill<T: Number>(source: &mut Source, out: &mut [T]) -> Result<(), CaseError> {
    for place in out.iter_mut() {
        *place = T::read(source)?;
    }
    Ok(())
}

// Reads the end of the file; a line that follows is refused.
pub fn finish(source: &mut Source) -> Result<(), CaseError> {
    match source.line()? {
        None => Ok(()),
        Some(_) => Err(CaseError::Bad),
    }
}
