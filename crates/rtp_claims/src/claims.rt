// Theorems about the definitions: functions with nothing to do, so that the check names and counts them.
ghost use Rattle.rtp_claims.specs.Claims.{HeaderAlone, NeverFound, MaskOnData, MaskedReadsAlike, MaskIsPublished};

// For packets of one length and one t, the header reader's answer depends on V, X, CC and the extension header alone: not on the P bit, not on the payload.
pub fn header_decides_alone()
    ensures { HeaderAlone }
{}

// Ids that name no element are absent.
pub fn some_ids_are_never_found()
    ensures { NeverFound }
{}

// The mask is all ones on data bytes of listed elements and zero elsewhere.
pub fn mask_is_on_data()
    ensures { MaskOnData }
{}

// A receiver reads the same elements in a masked block, makes the same mask and gets the block back.
pub fn masked_block_reads_alike()
    ensures { MaskedReadsAlike }
{}

// RFC 6904's own mask, computed from the definitions.
pub fn mask_is_published()
    ensures { MaskIsPublished }
{}
