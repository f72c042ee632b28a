// What the programs that write scene texts anew share. Their output is taken for a scene, so a refusal and a text that cannot be read
// are said on standard error too.
#![tactic(auto)]

use output::{ErrorStream, Refused};
use scene::Refusal;
use scene_texts::{Program, Scene};
use std::io;
use std::rt::Env;
use table::MOST_BYTES;

// What a program makes of each text.
pub trait Rewrite {
    // How it is called.
    const USAGE: &'static [u8];

    // Puts the new text at the start of a buffer.
    fn rewrite(&self, scene: &Scene<'_>, out: &mut [u8]) -> Result<usize, Refusal>;

    // The line of a refusal's place in the text that was read; none where the place is not of that text.
    fn line_at(&self, _text: &[u8], _place: usize) -> Option<usize> {
        None
    }
}

#[derive(Drop)]
pub struct Rewriting<T>(pub T);

impl<T: Rewrite> Program for Rewriting<T> {
    const USAGE: &'static [u8] = T::USAGE;

    fn answer(&self, rt: &(impl Env + Print + ErrorStream), scene: &Scene<'_>) -> io::Result<()> {
        let mut out = [0u8; MOST_BYTES];
        match self.0.rewrite(scene, &mut out) {
            Ok(n) => rt.write_all(lexer::part(&out, 0, n)),
            Err(Refusal { reason, place }) => {
                let line = self.0.line_at(scene.text, place);
                self.refuse(
                    rt,
                    scene.number,
                    Refused {
                        reason: reason.number(),
                        place,
                        line,
                    },
                )
            }
        }
    }

    fn refuse(
        &self,
        rt: &(impl Env + Print + ErrorStream),
        number: usize,
        refused: Refused,
    ) -> io::Result<()> {
        input::refuse(rt, number, refused)
    }

    fn pass_over(&self, rt: &(impl Env + Print + ErrorStream), number: usize) -> io::Result<()> {
        input::pass_over(rt, number)
    }
}
