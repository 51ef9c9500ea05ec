// The checks of a file's form, in order: the length, the head, the length again, the lent slices, then the other blocks.
ghost use Rattle.std.specs.Prelude.{◌≡◌, MatchResult};
ghost use Rattle.layout.specs.Places.{parts_in, signs_in};
ghost use Rattle.jobfile.specs.Formed.{Sized, Few, Whole, Room, HeadRead, Formed, HeadRefused, SizeRefused, RestRead, FormRefused};
ghost use Rattle.jobfile.specs.declared.fault.JobFault.TheVariants as fault;

use crate::fault::JobFault;
use crate::file::JobFile;
use layout::form::Shaped;
use layout::shape::Shape;

// How many places the lent slices have.
#[derive(Clone, Copy)]
pub(crate) struct Lent {
    pub(crate) parts: usize,
    pub(crate) signs: usize,
}

impl<'a> JobFile<'a> {
    // The length is that of 1 to 25 blocks.
    fn check_length(&self) -> Result<(), JobFault>
        ensures { MatchResult result (λ _. Sized self.now.file.now) (λ e. (e ≡ fault.Length) × (Sized self.now.file.now → ⊥)) }
    {
        let length = self.file.len();
        if length == 0 || length % 512 != 0 || length > 12800 {
            return Err(JobFault::Length);
        }
        Ok(())
    }

    // The shape that the head gives, of at most 64 parts and signs.
    pub(crate) fn small_shape(&self) -> Result<Shape, JobFault>
        ensures { MatchResult result (λ shape. Few self.now.file.now × (shape ≡ record { parts = parts_in self.now.file.now; signs = signs_in self.now.file.now })) (λ e. (e ≡ fault.TooMany) × (Few self.now.file.now → ⊥)) }
    {
        let shape = self.shape();
        if shape.parts > 64 || shape.signs > 64 {
            return Err(JobFault::TooMany);
        }
        Ok(shape)
    }

    // The head, whose form does not depend on the numbers that it gives.
    fn check_head(&self) -> Result<(), JobFault>
        requires { Sized self.now.file.now }
        ensures { MatchResult result (λ _. HeadRead self.now.file.now) (HeadRefused self.now.file.now) }
    {
        let head = Shaped {
            file: self.file,
            shape: Shape::default(),
        };
        head.check_block(0)?;
        self.small_shape()?;
        Ok(())
    }

    // The whole length is what the head gives, with at most 16 blocks of acts; then the lent slices have room.
    fn check_size(&self, lent: Lent) -> Result<(), JobFault>
        ensures { MatchResult result (λ _. Whole self.now.file.now × Room self.now.file.now lent.parts lent.signs) (SizeRefused self.now.file.now lent.parts lent.signs) }
    {
        let start = self.acts_start();
        if !(start..=start + 16).contains(&(self.file.len() / 512)) {
            return Err(JobFault::Length);
        }
        let shape = self.shape();
        if lent.parts < usize::from(shape.parts) || lent.signs < usize::from(shape.signs) {
            return Err(JobFault::Short);
        }
        Ok(())
    }

    // The other blocks, in order.
    fn check_rest(&self) -> Result<(), JobFault>
        requires { Sized self.now.file.now }
        ensures { RestRead self.now.file.now result }
    {
        let whole = Shaped {
            file: self.file,
            shape: self.shape(),
        };
        whole.check_blocks(1, self.file.len() / 512)?;
        Ok(())
    }

    // Every check of the form.
    #[tactic(auto, using(crate::proofs::Checks::size_refused))]
    pub(crate) fn check_form(&self, lent: Lent) -> Result<(), JobFault>
        ensures { MatchResult result (λ _. Formed self.now.file.now × Room self.now.file.now lent.parts lent.signs) (FormRefused self.now.file.now lent.parts lent.signs) }
    {
        self.check_length()?;
        self.check_head()?;
        self.check_size(lent)?;
        self.check_rest()
    }
}
