//! Laws of the definitions. The functions do nothing: each contract is a law.

ghost use Rattle.std.specs.Prelude.{ℕ, Bool, List};
ghost use Rattle.encoding_mem.specs.ReadBack.{ReadsBackExactly};
ghost use Rattle.encoding_mem.specs.Steps.{StepLaw, in_any_set};
ghost use Rattle.encoding_mem.specs.Stateless.{stateless};
ghost use Rattle.encoding_tables.specs.Lookups.{AreEntries};
ghost use Rattle.encoding_tables.specs.Ranges.{HaveScalars};
ghost use Rattle.encoding_codecs.specs.Big5.{pieces_big5, big5_form};
ghost use Rattle.encoding_codecs.specs.EucJp.{pieces_euc_jp, euc_jp_form};
ghost use Rattle.encoding_codecs.specs.EucKr.{pieces_euc_kr, euc_kr_form};
ghost use Rattle.encoding_codecs.specs.ShiftJis.{pieces_shift_jis, shift_jis_form};
ghost use Rattle.encoding_codecs.specs.ShiftJisPointers.{ShiftJisPointerIsLeast};
ghost use Rattle.encoding_codecs.specs.JisPointers.{EucJpPointerIsLeast};
ghost use Rattle.encoding_codecs.specs.JisPointers.{Iso2022JpPointerIsLeast};
ghost use Rattle.encoding_codecs.specs.Gb18030.{pieces_gb18030};
ghost use Rattle.encoding_codecs.specs.Iso2022JpForms.{iso_2022_jp_coding};
ghost use Rattle.encoding_codecs.specs.Iso2022JpSets.{pieces_from_set};
ghost use Rattle.encoding_codecs.specs.Gb18030Coding.{gb18030_form};

/// What is written in EUC-KR reads back, by the decoder of the same index, as the text exactly when
/// each character of it has a pointer.
pub fn euc_kr_text_reads_back()
    ensures { (flat : List ℕ) → AreEntries flat
        → ReadsBackExactly (pieces_euc_kr flat) (stateless (euc_kr_form flat)) }
{}

/// What is written in Big5 reads back, by the decoder of the same index, as the text exactly when
/// each character of it has a pointer from 5024 on.
pub fn big5_text_reads_back()
    ensures { (flat : List ℕ) → AreEntries flat
        → ReadsBackExactly (pieces_big5 flat) (stateless (big5_form flat)) }
{}

/// The pointer that Shift_JIS writes for a character is the least one of jis0208 with it that is not from
/// 8272 to 8835.
pub fn shift_jis_pointers()
    ensures { ShiftJisPointerIsLeast }
{}

/// What EUC-JP writes for a character that is not ASCII, U+00A5, U+203E or halfwidth katakana: the
/// two bytes of the least pointer below 8836 of jis0208 with it, or with U+FF0D for U+2212. If
/// there is none, the character has no form.
pub fn euc_jp_pointers()
    ensures { EucJpPointerIsLeast }
{}

/// What ISO-2022-JP writes for a character that is not ASCII, U+00A5 or U+203E: the two bytes of
/// the least pointer below 8836 of jis0208 with what is looked up for it. That is U+FF0D for
/// U+2212, the entry in the index iso-2022-jp-katakana for halfwidth katakana, and else itself. If
/// there is no such pointer or no such entry, the character has no form.
pub fn iso_2022_jp_pointers()
    ensures { Iso2022JpPointerIsLeast }
{}

/// What Shift_JIS writes for a character, its bytes or its reference, reads back, by the decoder of
/// the same index, as that character, or begins with a piece that is malformed or another
/// character, whatever follows it.
pub fn shift_jis_steps()
    ensures { (jis0208 : List ℕ) → AreEntries jis0208
        → StepLaw (stateless (shift_jis_form jis0208)) (in_any_set (pieces_shift_jis jis0208)) }
{}

/// What EUC-JP writes for a character, its bytes or its reference, reads back, by the decoder of
/// the same index jis0208 and any jis0212, as that character, or begins with a piece that is
/// malformed or another character, whatever follows it.
pub fn euc_jp_steps()
    ensures { (jis0208 jis0212 : List ℕ) → AreEntries jis0208 → AreEntries jis0212
        → StepLaw (stateless (euc_jp_form jis0208)) (in_any_set (pieces_euc_jp jis0208 jis0212)) }
{}

/// What gb18030, or GBK, writes for a character, its bytes or its reference, reads back, by the
/// decoder of the same index and ranges, as that character, or begins with a piece that is
/// malformed or another character, whatever follows it.
pub fn gb18030_steps()
    ensures { (flat : List ℕ) (rows : List (ℕ × ℕ)) (extended : Bool) → AreEntries flat → HaveScalars rows
        → StepLaw (stateless (gb18030_form flat rows extended))
        (in_any_set (pieces_gb18030 flat rows)) }
{}

/// What EUC-KR writes for a character, its bytes or its reference, reads back, by the decoder of
/// the same index, as that character, or begins with a piece that is malformed or another
/// character, whatever follows it.
pub fn euc_kr_steps()
    ensures { (flat : List ℕ) → AreEntries flat
        → StepLaw (stateless (euc_kr_form flat)) (in_any_set (pieces_euc_kr flat)) }
{}

/// What Big5 writes for a character, its bytes or its reference, reads back, by the decoder of the
/// same index, as that character, or begins with a piece that is malformed or another character,
/// whatever follows it.
pub fn big5_steps()
    ensures { (flat : List ℕ) → AreEntries flat
        → StepLaw (stateless (big5_form flat)) (in_any_set (pieces_big5 flat)) }
{}

/// What is written in ISO-2022-JP for a character, its escape included, is read by the decoder of the
/// same index, in the mode of the set in force, as whole pieces with that character, after which the
/// decoder is in the mode of the set then in force; or it never reads as that character.
pub fn iso_2022_jp_steps()
    ensures { (jis0208 katakana : List ℕ) → AreEntries jis0208
        → StepLaw (iso_2022_jp_coding jis0208 katakana) (pieces_from_set jis0208) }
{}
